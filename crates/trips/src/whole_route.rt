//! What a whole list of a vehicle adds up to, from its start to its end.
ghost use Rattle.std.specs.Prelude.{◌≡◌, ◌+◌, ◌<◌, ◌≤◌, length};
ghost use Rattle.problem_data.specs.Reads.{RoseAtMost};
ghost use Rattle.problem_data.specs.Valid.{IsValid, IsValidType};
ghost use Rattle.routing_model.specs.Listed.{IsListed};
ghost use Rattle.trips.specs.RunSegments.{HoldsRun, run_before};
ghost use Rattle.trips.specs.inside.LastPlaces.{place_behind};
ghost use Rattle.trips.specs.WholeRoutes.{IsWhole};

use crate::run_segment::RunSegment;
use crate::trip_segment::RouteSegment;
use problem_data::{ProblemData, Reads, Steps, VehicleType, Visit};

/// What a whole list adds up to, from the start to the end.
#[derive(Clone, Copy, Debug, PartialEq, Eq)]
pub struct WholeRoute {
    /// The drive, and the excess load.
    pub segment: RouteSegment,
    /// The distance, from 0 to 10^16.
    pub distance: i64,
    /// The prizes of its clients, added up.
    pub prizes: u64,
}

/// What a list adds up to for a vehicle of this type. With n visits it reads at most n + 1 legs.
///
/// Condition: the list is tidy, names places that are there, and isn't too long.
pub fn whole_of(
    given: &ProblemData,
    vehicle_type: &VehicleType,
    visits: &[Visit],
    reads: &mut Steps<Reads>,
) -> WholeRoute
    requires vehicle_type { IsValidType given.now vehicle_type.now }
    requires listed { IsListed given.now visits.now }
    ensures whole { IsWhole given.now vehicle_type.now visits.now result }
    ensures reads { RoseAtMost (length visits.now + 1) reads.old reads.new }
{
    given.validity();
    let before = before_end(given, vehicle_type, visits, reads);
    ended(before, given, vehicle_type, visits, reads)
}

/// The start with all visits.
fn before_end(
    given: &ProblemData,
    vehicle_type: &VehicleType,
    visits: &[Visit],
    reads: &mut Steps<Reads>,
) -> RunSegment
    requires valid { IsValid given.now }
    requires vehicle_type { IsValidType given.now vehicle_type.now }
    requires listed { IsListed given.now visits.now }
    ensures before { HoldsRun given.now vehicle_type.now result (run_before visits.now (length visits.now)) }
    ensures reads { RoseAtMost (length visits.now) reads.old reads.new }
{
    let mut so_far = RunSegment::start(given, vehicle_type);
    let mut last = vehicle_type.start;
    for k in 0..visits.len() {
        let visit = visits[k];
        let next = RunSegment::visit(given, visit);
        so_far = so_far.join(last, next, visit.place(), given, vehicle_type, reads);
        last = visit.place();
    }
    so_far
}

/// The whole list, from the start with all visits.
fn ended(
    before: RunSegment,
    given: &ProblemData,
    vehicle_type: &VehicleType,
    visits: &[Visit],
    reads: &mut Steps<Reads>,
) -> WholeRoute
    requires valid { IsValid given.now }
    requires vehicle_type { IsValidType given.now vehicle_type.now }
    requires listed { IsListed given.now visits.now }
    requires before { HoldsRun given.now vehicle_type.now before (run_before visits.now (length visits.now)) }
    ensures whole { IsWhole given.now vehicle_type.now visits.now result }
    ensures reads { RoseAtMost 1 reads.old reads.new }
{
    let end = RunSegment::end(given, vehicle_type);
    let last = last_place(vehicle_type.start, visits);
    let all = before.join(last, end, vehicle_type.end, given, vehicle_type, reads);
    WholeRoute {
        segment: all.trips.close(vehicle_type.capacity),
        distance: all.distance.distance,
        prizes: all.prizes,
    }
}

/// The place of the last visit, or of the start where there is none.
fn last_place(start: u32, visits: &[Visit]) -> u32
    ensures { result ≡ place_behind start visits.now }
{
    let count = visits.len();
    if count == 0 {
        start
    } else {
        visits[count - 1].place()
    }
}
