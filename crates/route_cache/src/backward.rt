//! The pass over a list from its end to its first visit. It reads no leg.
ghost use Rattle.std.specs.Prelude.{◌≡◌, ◌+◌, ◌-◌, ◌<◌, IfOk, OnOk, length, slice_index_or};
ghost use Rattle.problem_data.specs.Places.{leg_distance, leg_duration};
ghost use Rattle.problem_data.specs.Valid.{IsValid, IsValidType};
ghost use Rattle.routing_model.specs.Listed.{IsListed};
ghost use Rattle.route_cache.specs.inside.Passes.{IsBackward, IsMarked};
ghost use Rattle.route_cache.specs.Marks.{place_along};

use crate::growing::grown_before;
use crate::mark::Mark;
use crate::piece_table::{PieceTable, head_of, middle_of, tail_of};
use problem_data::{Leg, NoMemory, ProblemData, VehicleType, Visit};
use std::alloc::Global;
use trips::{RunSegment, TripSegment};

/// What the pass has made, down to some position.
#[derive(Drop)]
pub struct Backward {
    /// What the visits so far with the end add up to.
    pub so_far: RunSegment,
    /// The pieces so far.
    pub table: PieceTable,
}

impl Backward {
    /// At the end.
    fn new(
        alloc: Global,
        given: &ProblemData,
        vehicle_type: &VehicleType,
        visits: &[Visit],
    ) -> Result<Backward, NoMemory>
        requires valid { IsValid given.now }
        requires vehicle_type { IsValidType given.now vehicle_type.now }
        requires listed { IsListed given.now visits.now }
        ensures { IfOk result (λ r. IsBackward given.now vehicle_type.now visits.now 0 r) }
    {
        let so_far = RunSegment::end(given, vehicle_type);
        let table = PieceTable::new(alloc, visits.len() + 1, head_of(so_far.trips))?;
        Ok(Backward { so_far, table })
    }

    /// One visit more, behind which the pass has been, over this leg.
    #[inline(always)]
    fn step(
        &mut self,
        given: &ProblemData,
        vehicle_type: &VehicleType,
        visits: &[Visit],
        at: usize,
        leg: Leg,
    ) -> Result<(), NoMemory>
        requires valid { IsValid given.now }
        requires vehicle_type { IsValidType given.now vehicle_type.now }
        requires listed { IsListed given.now visits.now }
        requires in_list { at < length visits.now }
        requires backward { IsBackward given.now vehicle_type.now visits.now (length visits.now - 1 - at) self.old }
        requires distance { leg.distance ≡ leg_distance given.now vehicle_type.now.profile (place_along vehicle_type.now visits.now (at + 1)) (place_along vehicle_type.now visits.now (at + 2)) }
        requires duration { leg.duration ≡ leg_duration given.now vehicle_type.now.profile (place_along vehicle_type.now visits.now (at + 1)) (place_along vehicle_type.now visits.now (at + 2)) }
        ensures { OnOk result (IsBackward given.now vehicle_type.now visits.now (length visits.now - at) self.new) }
    {
        match (self.so_far.trips, visits[at]) {
            (TripSegment::Open(piece), Visit::Client(place)) => {
                let so_far = RunSegment {
                    trips: TripSegment::Open(piece),
                    distance: self.so_far.distance,
                    prizes: self.so_far.prizes,
                };
                let visit = Visit::Client(place);
                self.add(so_far, visit, given, vehicle_type, visits, at, leg)
            }
            _ => self.add_any(given, vehicle_type, visits, at, leg),
        }
    }

    /// The visit before all so far, over this leg.
    #[inline(always)]
    fn add(
        &mut self,
        so_far: RunSegment,
        visit: Visit,
        given: &ProblemData,
        vehicle_type: &VehicleType,
        visits: &[Visit],
        at: usize,
        leg: Leg,
    ) -> Result<(), NoMemory>
        requires valid { IsValid given.now }
        requires vehicle_type { IsValidType given.now vehicle_type.now }
        requires listed { IsListed given.now visits.now }
        requires in_list { at < length visits.now }
        requires backward { IsBackward given.now vehicle_type.now visits.now (length visits.now - 1 - at) self.old }
        requires so_far { so_far ≡ self.old.so_far }
        requires visit { visit ≡ slice_index_or visits.now at (Visit.Client 0) }
        requires distance { leg.distance ≡ leg_distance given.now vehicle_type.now.profile (place_along vehicle_type.now visits.now (at + 1)) (place_along vehicle_type.now visits.now (at + 2)) }
        requires duration { leg.duration ≡ leg_duration given.now vehicle_type.now.profile (place_along vehicle_type.now visits.now (at + 1)) (place_along vehicle_type.now visits.now (at + 2)) }
        ensures { OnOk result (IsBackward given.now vehicle_type.now visits.now (length visits.now - at) self.new) }
    {
        let now = grown_before(so_far, visit, given, vehicle_type, visits, at, leg);
        let trips = now.trips;
        self.table
            .push(visit, head_of(trips), middle_of(trips), tail_of(trips))?;
        self.so_far = now;
        Ok(())
    }

    /// The same for any visit and any reloads so far. A client of the last trip changes few numbers, and is told apart.
    #[inline(never)]
    fn add_any(
        &mut self,
        given: &ProblemData,
        vehicle_type: &VehicleType,
        visits: &[Visit],
        at: usize,
        leg: Leg,
    ) -> Result<(), NoMemory>
        requires valid { IsValid given.now }
        requires vehicle_type { IsValidType given.now vehicle_type.now }
        requires listed { IsListed given.now visits.now }
        requires in_list { at < length visits.now }
        requires backward { IsBackward given.now vehicle_type.now visits.now (length visits.now - 1 - at) self.old }
        requires distance { leg.distance ≡ leg_distance given.now vehicle_type.now.profile (place_along vehicle_type.now visits.now (at + 1)) (place_along vehicle_type.now visits.now (at + 2)) }
        requires duration { leg.duration ≡ leg_duration given.now vehicle_type.now.profile (place_along vehicle_type.now visits.now (at + 1)) (place_along vehicle_type.now visits.now (at + 2)) }
        ensures { OnOk result (IsBackward given.now vehicle_type.now visits.now (length visits.now - at) self.new) }
    {
        self.add(
            self.so_far,
            visits[at],
            given,
            vehicle_type,
            visits,
            at,
            leg,
        )
    }
}

/// The table of all runs that end with the end.
pub(crate) fn passed_backward(
    alloc: Global,
    given: &ProblemData,
    vehicle_type: &VehicleType,
    visits: &[Visit],
    marks: &[Mark],
    durations: &[u32],
) -> Result<Backward, NoMemory>
    requires valid { IsValid given.now }
    requires vehicle_type { IsValidType given.now vehicle_type.now }
    requires listed { IsListed given.now visits.now }
    requires marked { IsMarked given.now vehicle_type.now visits.now (length visits.now + 1) marks.now durations.now }
    ensures { IfOk result (λ r. IsBackward given.now vehicle_type.now visits.now (length visits.now) r) }
{
    let mut backward = Backward::new(alloc, given, vehicle_type, visits)?;
    for k in 0..visits.len() {
        let at = visits.len() - 1 - k;
        let leg = Leg {
            distance: marks[at + 2].leg,
            duration: durations[at + 2],
        };
        backward.step(given, vehicle_type, visits, at, leg)?;
    }
    Ok(backward)
}
