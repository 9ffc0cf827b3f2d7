//! What one vehicle costs.
ghost use Rattle.std.specs.Prelude.{◌≡◌, ◌+◌, ◌-◌, ◌*◌, ◌<◌, ◌≤◌, List, length};
ghost use Rattle.problem_data.specs.declared.visit.Visit.{Visit as VisitOf};
ghost use Rattle.problem_data.specs.Places.{vehicle_count};
ghost use Rattle.problem_data.specs.Reads.{RoseAtMost};
ghost use Rattle.problem_data.specs.Valid.{IsValidType};
ghost use Rattle.routing_model.specs.Cost.{excess_time, route_cost};
ghost use Rattle.routing_model.specs.Listed.{IsListed, type_of_vehicle};
ghost use Rattle.segments.specs.Totals.{IsTotal, largest_total};
ghost use Rattle.trips.specs.Conditions.{IsSoundRoute};
ghost use Rattle.trips.specs.WholeRoutes.{IsWhole};
ghost use Rattle.penalty_cost.specs.Plans.{IsWeighed, largest_weight};
ghost use Rattle.joined_views.specs.Views.{is_some_list};
ghost use Rattle.penalty_cost.specs.inside.Totals.{AreShort, cost_of, drive_of, most_cost};

use crate::totals::{Totals, totals_in, totals_of};
use problem_data::{ProblemData, Reads, Steps, VehicleType, Visit};
use routing_model::Weights;
use trips::WholeRoute;

/// The time warp of these totals, and their net duration above the type's maximum.
pub(crate) fn excess_time(vehicle_type: &VehicleType, totals: Totals) -> u64
    requires { AreShort totals }
    ensures value { result ≡ excess_time vehicle_type.now (drive_of totals) }
    ensures short { result ≤ 2 * largest_total }
{
    let net = totals.duration.saturating_sub(totals.warp);
    totals.warp + net.saturating_sub(vehicle_type.max_duration)
}

/// The distance of these totals above the type's maximum.
pub(crate) fn excess_distance(vehicle_type: &VehicleType, totals: Totals) -> u64
    requires { AreShort totals }
    ensures value { result ≡ totals.distance - vehicle_type.now.max_distance }
    ensures short { result ≤ largest_total }
{
    totals.distance.saturating_sub(vehicle_type.max_distance)
}

/// What an amount costs at a price.
fn priced(price: u64, amount: u64) -> u128
    requires price { price ≤ largest_weight }
    requires amount { amount ≤ 2 * largest_total }
    ensures value { result ≡ price * amount }
    ensures short { result ≤ largest_weight * (2 * largest_total) }
{
    u128::from(price) * u128::from(amount)
}

/// What a used vehicle with these totals costs.
pub(crate) fn used_cost(
    given: &ProblemData,
    vehicle_type: &VehicleType,
    totals: Totals,
    weights: Weights,
) -> u128
    requires vehicle_type { IsValidType given.now vehicle_type.now }
    requires short { AreShort totals }
    requires weights { IsWeighed weights }
    ensures value { result ≡ cost_of weights vehicle_type.now totals }
    ensures short { result ≤ most_cost }
{
    given.validity();
    u128::from(vehicle_type.fixed)
        + priced(vehicle_type.unit_distance, totals.distance)
        + priced(vehicle_type.unit_duration, totals.duration)
        + priced(weights.load, totals.excess_load)
        + priced(weights.warp, excess_time(vehicle_type, totals))
        + priced(weights.distance, excess_distance(vehicle_type, totals))
}

/// What a vehicle costs by what its list adds up to; nothing where it is unused.
pub(crate) fn whole_cost(
    given: &ProblemData,
    vehicle_type: &VehicleType,
    used: bool,
    whole: WholeRoute,
    weights: Weights,
) -> u128
    requires vehicle_type { IsValidType given.now vehicle_type.now }
    requires route { IsSoundRoute whole.segment }
    requires distance { IsTotal whole.distance }
    requires weights { IsWeighed weights }
    ensures value { (visits : List VisitOf) → IsWhole given.now vehicle_type.now visits whole → IsListed given.now visits → used ≡ is_some_list visits →
        result ≡ route_cost given.now weights vehicle_type.now visits }
    ensures short { result ≤ most_cost }
{
    if !used {
        return 0;
    }
    given.validity();
    used_cost(given, vehicle_type, totals_in(whole), weights)
}

/// What a vehicle costs with this list. See `route_cost`.
pub(crate) fn vehicle_cost(
    given: &ProblemData,
    vehicle: u32,
    visits: &[Visit],
    weights: Weights,
    reads: &mut Steps<Reads>,
) -> u128
    requires vehicle { vehicle < vehicle_count given.now }
    requires listed { IsListed given.now visits.now }
    requires weights { IsWeighed weights }
    ensures value { result ≡ route_cost given.now weights (type_of_vehicle given.now vehicle) visits.now }
    ensures short { result ≤ most_cost }
    ensures reads { RoseAtMost (length visits.now + 1) reads.old reads.new }
{
    if visits.is_empty() {
        return 0;
    }
    let vehicle_type = given.vehicle_type(vehicle);
    let totals = totals_of(given, vehicle_type, visits, reads);
    used_cost(given, vehicle_type, totals, weights)
}
