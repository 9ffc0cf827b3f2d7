//! The pass over a list from its start to its end.
ghost use Rattle.std.specs.Prelude.{◌≡◌, ◌+◌, ◌*◌, ◌<◌, IfOk, OnOk, length, slice_index_or};
ghost use Rattle.problem_data.specs.Places.{leg_distance, leg_duration};
ghost use Rattle.problem_data.specs.Reads.{RoseAtMost};
ghost use Rattle.problem_data.specs.Valid.{IsValid, IsValidType};
ghost use Rattle.routing_model.specs.Listed.{IsListed};
ghost use Rattle.trips.specs.RunSegments.{HoldsRun, run_before};
ghost use Rattle.trips.specs.WholeRoutes.{IsWhole};
ghost use Rattle.route_cache.specs.inside.Passes.{IsForward, IsMarked};
ghost use Rattle.route_cache.specs.Marks.{place_along};

use crate::growing::grown_behind;
use crate::mark::{Mark, place_along};
use crate::piece_table::{PieceTable, head_of, middle_of, tail_of};
use problem_data::{Leg, NoMemory, ProblemData, Reads, Steps, VehicleType, Visit, leg};
use std::alloc::Global;
use trips::{RunSegment, TripSegment, WholeRoute};

/// What the pass has made, up to some position.
#[derive(Drop)]
pub struct Forward {
    /// What the start with all visits so far adds up to.
    pub so_far: RunSegment,
    /// The marks so far.
    pub marks: Vec<Mark>,
    /// The durations of the legs so far; 0 for the start.
    pub durations: Vec<u32>,
    /// The pieces so far.
    pub table: PieceTable,
}

impl Forward {
    /// At the start.
    fn new(
        alloc: Global,
        given: &ProblemData,
        vehicle_type: &VehicleType,
        visits: &[Visit],
    ) -> Result<Forward, NoMemory>
        requires valid { IsValid given.now }
        requires vehicle_type { IsValidType given.now vehicle_type.now }
        requires listed { IsListed given.now visits.now }
        ensures { IfOk result (λ r. IsForward given.now vehicle_type.now visits.now 0 r) }
    {
        let room = visits.len() + 2;
        let so_far = RunSegment::start(given, vehicle_type);
        let mut marks = Vec::with_capacity(alloc, room)?;
        marks.push(Mark::start(vehicle_type))?;
        let mut durations = Vec::with_capacity(alloc, room)?;
        durations.push(0)?;
        let table = PieceTable::new(alloc, visits.len() + 1, tail_of(so_far.trips))?;
        Ok(Forward {
            so_far,
            marks,
            durations,
            table,
        })
    }

    /// One visit more: the leg to it and the one past it are read.
    #[inline(always)]
    fn step(
        &mut self,
        given: &ProblemData,
        vehicle_type: &VehicleType,
        visits: &[Visit],
        k: usize,
        reads: &mut Steps<Reads>,
    ) -> Result<(), NoMemory>
        requires valid { IsValid given.now }
        requires vehicle_type { IsValidType given.now vehicle_type.now }
        requires listed { IsListed given.now visits.now }
        requires in_list { k < length visits.now }
        requires forward { IsForward given.now vehicle_type.now visits.now k self.old }
        ensures forward { OnOk result (IsForward given.now vehicle_type.now visits.now (k + 1) self.new) }
        ensures reads { RoseAtMost 2 reads.old reads.new }
    {
        let to = leg_along(given, vehicle_type, visits, k, k + 1, reads);
        let over = leg_along(given, vehicle_type, visits, k, k + 2, reads).distance;
        match (self.so_far.trips, visits[k]) {
            (TripSegment::Open(piece), Visit::Client(place)) => {
                let so_far = RunSegment {
                    trips: TripSegment::Open(piece),
                    distance: self.so_far.distance,
                    prizes: self.so_far.prizes,
                };
                let visit = Visit::Client(place);
                self.add(so_far, visit, given, vehicle_type, visits, k, to, over)
            }
            _ => self.add_any(given, vehicle_type, visits, k, to, over),
        }
    }

    /// The visit behind all so far, over these legs.
    #[inline(always)]
    fn add(
        &mut self,
        so_far: RunSegment,
        visit: Visit,
        given: &ProblemData,
        vehicle_type: &VehicleType,
        visits: &[Visit],
        k: usize,
        to: Leg,
        over: u32,
    ) -> Result<(), NoMemory>
        requires valid { IsValid given.now }
        requires vehicle_type { IsValidType given.now vehicle_type.now }
        requires listed { IsListed given.now visits.now }
        requires in_list { k < length visits.now }
        requires forward { IsForward given.now vehicle_type.now visits.now k self.old }
        requires so_far { so_far ≡ self.old.so_far }
        requires visit { visit ≡ slice_index_or visits.now k (Visit.Client 0) }
        requires distance { to.distance ≡ leg_distance given.now vehicle_type.now.profile (place_along vehicle_type.now visits.now k) (place_along vehicle_type.now visits.now (k + 1)) }
        requires duration { to.duration ≡ leg_duration given.now vehicle_type.now.profile (place_along vehicle_type.now visits.now k) (place_along vehicle_type.now visits.now (k + 1)) }
        requires over { over ≡ leg_distance given.now vehicle_type.now.profile (place_along vehicle_type.now visits.now k) (place_along vehicle_type.now visits.now (k + 2)) }
        ensures { OnOk result (IsForward given.now vehicle_type.now visits.now (k + 1) self.new) }
    {
        let last = self.marks[k];
        let now = grown_behind(so_far, visit, given, vehicle_type, visits, k, to);
        let here = last.at_visit(given, vehicle_type, visits, k, now, to.distance, over);
        let trips = now.trips;
        self.table
            .push(visit, tail_of(trips), middle_of(trips), head_of(trips))?;
        self.marks.push(here)?;
        self.durations.push(to.duration)?;
        self.so_far = now;
        Ok(())
    }

    /// The same for any visit and any reloads so far. A client of the first trip changes few numbers, and is told apart.
    #[inline(never)]
    fn add_any(
        &mut self,
        given: &ProblemData,
        vehicle_type: &VehicleType,
        visits: &[Visit],
        k: usize,
        to: Leg,
        over: u32,
    ) -> Result<(), NoMemory>
        requires valid { IsValid given.now }
        requires vehicle_type { IsValidType given.now vehicle_type.now }
        requires listed { IsListed given.now visits.now }
        requires in_list { k < length visits.now }
        requires forward { IsForward given.now vehicle_type.now visits.now k self.old }
        requires distance { to.distance ≡ leg_distance given.now vehicle_type.now.profile (place_along vehicle_type.now visits.now k) (place_along vehicle_type.now visits.now (k + 1)) }
        requires duration { to.duration ≡ leg_duration given.now vehicle_type.now.profile (place_along vehicle_type.now visits.now k) (place_along vehicle_type.now visits.now (k + 1)) }
        requires over { over ≡ leg_distance given.now vehicle_type.now.profile (place_along vehicle_type.now visits.now k) (place_along vehicle_type.now visits.now (k + 2)) }
        ensures { OnOk result (IsForward given.now vehicle_type.now visits.now (k + 1) self.new) }
    {
        self.add(
            self.so_far,
            visits[k],
            given,
            vehicle_type,
            visits,
            k,
            to,
            over,
        )
    }

    /// The end: the leg to it is read.
    pub(crate) fn finish(
        &mut self,
        given: &ProblemData,
        vehicle_type: &VehicleType,
        visits: &[Visit],
        reads: &mut Steps<Reads>,
    ) -> Result<WholeRoute, NoMemory>
        requires valid { IsValid given.now }
        requires vehicle_type { IsValidType given.now vehicle_type.now }
        requires listed { IsListed given.now visits.now }
        requires forward { IsForward given.now vehicle_type.now visits.now (length visits.now) self.old }
        ensures whole { IfOk result (λ r. IsWhole given.now vehicle_type.now visits.now r) }
        ensures marked { OnOk result (IsMarked given.now vehicle_type.now visits.now (length visits.now + 1) self.new.marks.items self.new.durations.items) }
        ensures table { OnOk result (self.new.table ≡ self.old.table) }
        ensures reads { RoseAtMost 1 reads.old reads.new }
    {
        let count = visits.len();
        let last = self.marks[count];
        let to = leg_along(given, vehicle_type, visits, count, count + 1, reads);
        let whole = ended(self.so_far, given, vehicle_type, visits, to);
        let end = last.at_end(given, vehicle_type, visits, whole.distance, to.distance);
        self.marks.push(end)?;
        self.durations.push(to.duration)?;
        Ok(whole)
    }
}

/// The pass over a list, and what it adds up to.
pub(crate) fn passed_forward(
    alloc: Global,
    given: &ProblemData,
    vehicle_type: &VehicleType,
    visits: &[Visit],
    reads: &mut Steps<Reads>,
) -> Result<Forward, NoMemory>
    requires valid { IsValid given.now }
    requires vehicle_type { IsValidType given.now vehicle_type.now }
    requires listed { IsListed given.now visits.now }
    ensures forward { IfOk result (λ r. IsForward given.now vehicle_type.now visits.now (length visits.now) r) }
    ensures reads { RoseAtMost (2 * length visits.now) reads.old reads.new }
{
    let mut forward = Forward::new(alloc, given, vehicle_type, visits)?;
    for k in 0..visits.len() {
        forward.step(given, vehicle_type, visits, k, reads)?;
    }
    Ok(forward)
}

/// The leg from a position of a list to another one.
#[inline(always)]
fn leg_along(
    given: &ProblemData,
    vehicle_type: &VehicleType,
    visits: &[Visit],
    from: usize,
    to: usize,
    reads: &mut Steps<Reads>,
) -> Leg
    requires vehicle_type { IsValidType given.now vehicle_type.now }
    requires listed { IsListed given.now visits.now }
    ensures distance { result.distance ≡ leg_distance given.now vehicle_type.now.profile (place_along vehicle_type.now visits.now from) (place_along vehicle_type.now visits.now to) }
    ensures duration { result.duration ≡ leg_duration given.now vehicle_type.now.profile (place_along vehicle_type.now visits.now from) (place_along vehicle_type.now visits.now to) }
    ensures reads { RoseAtMost 1 reads.old reads.new }
{
    let last = place_along(vehicle_type, visits, from);
    let next = place_along(vehicle_type, visits, to);
    leg(given, vehicle_type.profile, last, next, reads)
}

/// The whole list, where the start with all visits is known, and the leg to the end.
fn ended(
    before: RunSegment,
    given: &ProblemData,
    vehicle_type: &VehicleType,
    visits: &[Visit],
    leg: Leg,
) -> WholeRoute
    requires valid { IsValid given.now }
    requires vehicle_type { IsValidType given.now vehicle_type.now }
    requires listed { IsListed given.now visits.now }
    requires before { HoldsRun given.now vehicle_type.now before (run_before visits.now (length visits.now)) }
    requires distance { leg.distance ≡ leg_distance given.now vehicle_type.now.profile (place_along vehicle_type.now visits.now (length visits.now)) (place_along vehicle_type.now visits.now (length visits.now + 1)) }
    requires duration { leg.duration ≡ leg_duration given.now vehicle_type.now.profile (place_along vehicle_type.now visits.now (length visits.now)) (place_along vehicle_type.now visits.now (length visits.now + 1)) }
    ensures { IsWhole given.now vehicle_type.now visits.now result }
{
    let end = RunSegment::end(given, vehicle_type);
    let all = before.merge(end, leg, vehicle_type.capacity);
    WholeRoute {
        segment: all.trips.close(vehicle_type.capacity),
        distance: all.distance.distance,
        prizes: all.prizes,
    }
}
