//! One visit more, behind a run or before it.
ghost use Rattle.std.specs.Prelude.{◌≡◌, ℕ, ◌+◌, ◌<◌, Bool, length, slice_index_or};
ghost use Rattle.problem_data.specs.Places.{leg_distance, leg_duration};
ghost use Rattle.problem_data.specs.Valid.{IsValid, IsValidType};
ghost use Rattle.routing_model.specs.Listed.{IsListed};
ghost use Rattle.trips.specs.RunSegments.{HoldsRun, run_from};
ghost use Rattle.route_cache.specs.inside.Shapes.{Grows, back, front};
ghost use Rattle.route_cache.specs.inside.Tables.{GoesOn, IsBegun, run_up_to};
ghost use Rattle.route_cache.specs.Marks.{place_along};

use problem_data::{Leg, ProblemData, VehicleType, Visit};
use trips::RunSegment;

/// A run with the k-th visit behind it, over this leg.
#[inline(always)]
pub(crate) fn grown_behind(
    so_far: RunSegment,
    visit: Visit,
    given: &ProblemData,
    vehicle_type: &VehicleType,
    visits: &[Visit],
    k: usize,
    leg: Leg,
) -> RunSegment
    requires valid { IsValid given.now }
    requires vehicle_type { IsValidType given.now vehicle_type.now }
    requires listed { IsListed given.now visits.now }
    requires in_list { k < length visits.now }
    requires visit { visit ≡ slice_index_or visits.now k (Visit.Client 0) }
    requires goes_on { GoesOn given.now vehicle_type.now visits.now k so_far }
    requires distance { leg.distance ≡ leg_distance given.now vehicle_type.now.profile (place_along vehicle_type.now visits.now k) (place_along vehicle_type.now visits.now (k + 1)) }
    requires duration { leg.duration ≡ leg_duration given.now vehicle_type.now.profile (place_along vehicle_type.now visits.now k) (place_along vehicle_type.now visits.now (k + 1)) }
    ensures holds { (starts : Bool) (first : ℕ) → IsBegun starts first k → HoldsRun given.now vehicle_type.now so_far (run_up_to starts visits.now first k) →
        HoldsRun given.now vehicle_type.now result (run_up_to starts visits.now first (k + 1)) }
    ensures grows { Grows front (slice_index_or visits.now k (Visit.Client 0)) so_far.trips result.trips }
{
    let next = RunSegment::visit(given, visit);
    so_far.merge(next, leg, vehicle_type.capacity)
}

/// The visits from one on, with the end: the visit before them, over this leg.
#[inline(always)]
pub(crate) fn grown_before(
    so_far: RunSegment,
    visit: Visit,
    given: &ProblemData,
    vehicle_type: &VehicleType,
    visits: &[Visit],
    at: usize,
    leg: Leg,
) -> RunSegment
    requires valid { IsValid given.now }
    requires vehicle_type { IsValidType given.now vehicle_type.now }
    requires listed { IsListed given.now visits.now }
    requires in_list { at < length visits.now }
    requires visit { visit ≡ slice_index_or visits.now at (Visit.Client 0) }
    requires holds { HoldsRun given.now vehicle_type.now so_far (run_from visits.now (at + 1)) }
    requires distance { leg.distance ≡ leg_distance given.now vehicle_type.now.profile (place_along vehicle_type.now visits.now (at + 1)) (place_along vehicle_type.now visits.now (at + 2)) }
    requires duration { leg.duration ≡ leg_duration given.now vehicle_type.now.profile (place_along vehicle_type.now visits.now (at + 1)) (place_along vehicle_type.now visits.now (at + 2)) }
    ensures holds { HoldsRun given.now vehicle_type.now result (run_from visits.now at) }
    ensures grows { Grows back (slice_index_or visits.now at (Visit.Client 0)) so_far.trips result.trips }
{
    let front = RunSegment::visit(given, visit);
    front.merge(so_far, leg, vehicle_type.capacity)
}
