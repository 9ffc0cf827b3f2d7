//! What a vehicle's list takes and exceeds.
ghost use Rattle.std.specs.Prelude.{◌≡◌, ◌+◌, ◌≤◌, List, length};
ghost use Rattle.problem_data.specs.declared.problem.Problem.{Problem as ProblemOf};
ghost use Rattle.problem_data.specs.declared.problem.VehicleType.{VehicleType as TypeOf};
ghost use Rattle.problem_data.specs.declared.visit.Visit.{Visit as VisitOf};
ghost use Rattle.problem_data.specs.Reads.{RoseAtMost};
ghost use Rattle.problem_data.specs.Valid.{IsValid, IsValidType};
ghost use Rattle.routing_model.specs.Listed.{IsListed};
ghost use Rattle.routing_model.specs.Stops.{stops};
ghost use Rattle.segments.specs.Totals.{IsTotal};
ghost use Rattle.trips.specs.Conditions.{IsSoundRoute};
ghost use Rattle.trips.specs.WholeRoutes.{IsWhole};
ghost use Rattle.penalty_cost.specs.inside.Totals.{AreShared, AreShort, AreTotals};

use problem_data::{ProblemData, Reads, Steps, VehicleType, Visit};
use trips::{WholeRoute, whole_of};

/// What a vehicle's list takes and exceeds.
#[derive(Clone, Copy)]
pub(crate) struct Totals {
    /// How far the vehicle drives.
    pub distance: u64,
    /// How long it drives from the best start.
    pub duration: u64,
    /// How much time warp it takes from that start.
    pub warp: u64,
    /// What its trips' loads exceed the capacity by.
    pub excess_load: u64,
}

/// The totals of a list, at one leg more than it has visits.
pub(crate) fn totals_of(
    given: &ProblemData,
    vehicle_type: &VehicleType,
    visits: &[Visit],
    reads: &mut Steps<Reads>,
) -> Totals
    requires vehicle_type { IsValidType given.now vehicle_type.now }
    requires listed { IsListed given.now visits.now }
    ensures totals { AreTotals given.now vehicle_type.now visits.now result }
    ensures short { AreShort result }
    ensures shared { AreShared (length (stops given.now vehicle_type.now visits.now)) result }
    ensures reads { RoseAtMost (length visits.now + 1) reads.old reads.new }
{
    given.validity();
    totals_in(whole_of(given, vehicle_type, visits, reads))
}

/// The totals of what a whole list adds up to.
pub(crate) fn totals_in(whole: WholeRoute) -> Totals
    requires route { IsSoundRoute whole.segment }
    requires distance { IsTotal whole.distance }
    ensures totals { (p : ProblemOf) (t : TypeOf) (visits : List VisitOf) → IsValid p → IsValidType p t → IsWhole p t visits whole → AreTotals p t visits result }
    ensures short { AreShort result }
{
    let drive = whole.segment.duration;
    Totals {
        distance: whole.distance as u64,
        duration: drive.least_duration() as u64,
        warp: drive.least_warp() as u64,
        excess_load: whole.segment.excess as u64,
    }
}
