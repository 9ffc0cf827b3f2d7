//! Routes: the list of one vehicle, with what its beginnings and endings add up to.
ghost use Rattle.std.specs.Prelude.{◌≡◌, ◌+◌, ◌-◌, ◌*◌, ◌<◌, ◌≤◌, [], Some, true, false, length, IfOk, OnOk, OnErr, pos, slice_range};
ghost use Rattle.problem_data.specs.Places.{vehicle_count};
ghost use Rattle.problem_data.specs.Reads.{RoseAtMost};
ghost use Rattle.problem_data.specs.Valid.{IsValid, IsValidType};
ghost use Rattle.routing_model.specs.Cost.{distance};
ghost use Rattle.routing_model.specs.Listed.{IsListed, type_of_vehicle};
ghost use Rattle.segments.specs.Totals.{IsTotal, largest_total};
ghost use Rattle.trips.specs.Conditions.{IsSoundRoute};
ghost use Rattle.trips.specs.RunSegments.{prizes_of, run_before, run_from};
ghost use Rattle.trips.specs.Spans.{spans_from, trips_in};
ghost use Rattle.trips.specs.Standing.{StandsForRoute};
ghost use Rattle.route_cache.specs.inside.Kept.{IsRoute};
ghost use Rattle.route_cache.specs.inside.Lookups.{IsPart, IsPartLength, run_along};
ghost use Rattle.route_cache.specs.inside.Passes.{IsMarked};
ghost use Rattle.route_cache.specs.inside.Tables.{TripsHold, run_up_to};
ghost use Rattle.route_cache.specs.Marks.{AreMarks};

use crate::growing::grown_behind;
use crate::kept::{Kept, kept_of};
use crate::mark::Mark;
use crate::view::View;
use problem_data::{Leg, NoMemory, ProblemData, Reads, Steps, VehicleType, Visit};
use std::alloc::Global;
use std::marker::Model;
use trips::{RouteSegment, RunSegment, Trip, TripSegment};

/// The visit list of one vehicle, with what its beginnings and endings add up to.
#[derive(Drop)]
pub struct Route<'d> {
    given: &'d ProblemData,
    vehicle: u32,
    visits: Vec<Visit>,
    kept: Kept,
    alloc: Global,
}

impl<'d> Model for Route<'d> {
    ghost use Rattle.std.specs.Prelude.{};
    ghost use Rattle.routing_model.specs.Listed.{type_of_vehicle};
    ghost use Rattle.route_cache.specs.Routes.{RouteState};
    ghost use Rattle.route_cache.specs.inside.Kept.{IsKept, IsRoute};

    ghost Value = { RouteState };

    ghost view = { λ a. record { problem = a.given.now; vehicle = a.vehicle; visits = a.visits.items } };

    ghost invariant = { λ a. IsRoute a.given.now a.vehicle a.visits.items × IsKept a.given.now (type_of_vehicle a.given.now a.vehicle) a.visits.items a.kept };
}

impl<'d> Route<'d> {
    /// The empty list of a vehicle. Condition: the vehicle is in range. At most 16 legs are read. Refused only where memory runs
    /// out.
    pub fn new(
        alloc: Global,
        given: &'d ProblemData,
        vehicle: u32,
        reads: &mut Steps<Reads>,
    ) -> Result<Route<'d>, NoMemory>
        requires { vehicle < vehicle_count given.now }
        ensures route { IfOk result (λ r. r ≡ record { problem = given.now; vehicle = vehicle; visits = [] }) }
        ensures reads { RoseAtMost 16 reads.old reads.new }
    {
        Route::with_visits(alloc, given, vehicle, &[], reads)
    }

    /// The route of a vehicle with this list. Conditions: the vehicle is in range, and the list is tidy, names places that are
    /// there, and isn't too long. With n visits it reads at most 16 · (n + 1) legs. Refused only where memory runs out.
    pub fn with_visits(
        alloc: Global,
        given: &'d ProblemData,
        vehicle: u32,
        visits: &[Visit],
        reads: &mut Steps<Reads>,
    ) -> Result<Route<'d>, NoMemory>
        requires vehicle { vehicle < vehicle_count given.now }
        requires listed { IsListed given.now visits.now }
        ensures route { IfOk result (λ r. r ≡ record { problem = given.now; vehicle = vehicle; visits = visits.now }) }
        ensures reads { RoseAtMost (16 * (length visits.now + 1)) reads.old reads.new }
    {
        given.validity();
        let vehicle_type = given.vehicle_type(vehicle);
        let kept = kept_of(alloc, given, vehicle_type, visits, reads)?;
        let list = Vec::from_slice(alloc, visits)?;
        Ok(Route {
            given,
            vehicle,
            visits: list,
            kept,
            alloc,
        })
    }

    /// The problem that was handed in.
    pub fn data(&self) -> &'d ProblemData
        ensures { result.now ≡ self.now.problem }
    {
        self.given
    }

    /// The number of the vehicle.
    pub fn vehicle(&self) -> u32
        ensures number { result ≡ self.now.vehicle }
        ensures in_range { result < vehicle_count self.now.problem }
    {
        self.vehicle
    }

    /// The visits, in order.
    pub fn visits(&self) -> &[Visit]
        ensures visits { result.now ≡ self.now.visits }
        ensures listed { IsListed self.now.problem self.now.visits }
    {
        self.visits.as_slice()
    }

    /// The runs of clients between reloads, as ranges of positions, in order. An empty list has none.
    pub fn trips(&self) -> &[Trip]
        ensures { result.now ≡ spans_from 0 (trips_in self.now.visits) }
    {
        self.kept.trips.as_slice()
    }

    /// What the list adds up to, from the start to the end.
    pub fn segment(&self) -> RouteSegment
        ensures sound { IsSoundRoute result }
        ensures stands { StandsForRoute self.now.problem (type_of_vehicle self.now.problem self.now.vehicle) result self.now.visits }
    {
        self.kept.whole.segment
    }

    /// How far the vehicle drives, from the start to the end. From 0 to 10^16.
    pub fn distance(&self) -> i64
        ensures in_range { IsTotal result }
        ensures distance { result ≡ pos (distance self.now.problem (type_of_vehicle self.now.problem self.now.vehicle) self.now.visits) }
    {
        self.kept.whole.distance
    }

    /// The prizes of its clients, added up. From 0 to 10^16.
    pub fn prizes(&self) -> u64
        ensures { result ≡ prizes_of self.now.problem self.now.visits }
    {
        self.kept.whole.prizes
    }

    /// A mark for each position: the start, each visit, and the end.
    pub fn marks(&self) -> &[Mark]
        ensures { AreMarks self.now.problem (type_of_vehicle self.now.problem self.now.vehicle) self.now.visits result.now }
    {
        self.kept.marks.as_slice()
    }

    /// The start and the first i visits. Condition: there are so many. It reads no leg and takes no memory.
    pub fn before(&self, i: u32) -> View<'_>
        requires { i ≤ length self.now.visits }
        ensures { result ≡ record { problem = self.now.problem; vehicle = Some self.now.vehicle; list = self.now.visits; first = 0; end = i; starts = true; ends = false } }
    {
        View {
            given: self.given,
            lender: Some(self),
            list: self.visits(),
            first: 0,
            end: i,
            starts: true,
            ends: false,
        }
    }

    /// The visits from the i-th on, and the end. The first visit is the one with number 1, and behind the last one there is the end
    /// alone. Condition: i is from 1 to one more than the number of visits. It reads no leg and takes no memory.
    pub fn after(&self, i: u32) -> View<'_>
        requires some { 1 ≤ i }
        requires in_list { i ≤ length self.now.visits + 1 }
        ensures { result ≡ record { problem = self.now.problem; vehicle = Some self.now.vehicle; list = self.now.visits; first = i - 1; end = length self.now.visits; starts = false; ends = true } }
    {
        let list = self.visits();
        View {
            given: self.given,
            lender: Some(self),
            list,
            first: i - 1,
            end: list.len() as u32,
            starts: false,
            ends: true,
        }
    }

    /// The visits i to j, the first visit being the one with number 1. Condition: 1 is at most i, i at most j, and j at most the
    /// number of visits. It reads no leg and takes no memory.
    pub fn between(&self, i: u32, j: u32, reads: &mut Steps<Reads>) -> View<'_>
        requires some { 1 ≤ i }
        requires in_order { i ≤ j }
        requires in_list { j ≤ length self.now.visits }
        ensures view { result ≡ record { problem = self.now.problem; vehicle = Some self.now.vehicle; list = self.now.visits; first = i - 1; end = j; starts = false; ends = false } }
        ensures reads { RoseAtMost (j - i) reads.old reads.new }
        ensures unread { reads.new ≡ reads.old }
    {
        View {
            given: self.given,
            lender: Some(self),
            list: self.visits(),
            first: i - 1,
            end: j,
            starts: false,
            ends: false,
        }
    }

    /// Gives the vehicle another list. Condition: the list is tidy, names places that are there, and has at most 2,079 visits. With
    /// n visits it reads at most 16 · (n + 1) legs. Where memory runs out, the route is as it was.
    pub fn set_visits(&mut self, visits: &[Visit], reads: &mut Steps<Reads>) -> Result<(), NoMemory>
        requires { IsListed self.old.problem visits.now }
        ensures ok { OnOk result (self.new ≡ record self.old { visits = visits.now }) }
        ensures err { OnErr result (self.new ≡ self.old) }
        ensures reads { RoseAtMost (16 * (length visits.now + 1)) reads.old reads.new }
    {
        let vehicle_type = self.given.vehicle_type(self.vehicle);
        let kept = kept_of(self.alloc, self.given, vehicle_type, visits, reads)?;
        let list = Vec::from_slice(self.alloc, visits)?;
        self.visits = list;
        self.kept = kept;
        Ok(())
    }

    /// Says what holds of each route, and does nothing.
    fn validity(&self)
        ensures { IsRoute self.now.problem self.now.vehicle self.now.visits }
    {
        self.given.validity();
    }

    /// The segment of a part of the list.
    pub(crate) fn segment_of(&self, first: u32, end: u32, starts: bool, ends: bool) -> TripSegment
        requires { IsPart (length self.now.visits) first end starts ends }
        ensures { TripsHold self.now.problem (type_of_vehicle self.now.problem self.now.vehicle) result (record { starts = starts; visits = slice_range self.now.visits first end; ends = ends }) }
    {
        if starts {
            self.segment_before(end)
        } else if ends {
            self.segment_after(first)
        } else {
            self.segment_between(first, end)
        }
    }

    /// The segment of the start and the first visits.
    fn segment_before(&self, count: u32) -> TripSegment
        requires { count ≤ length self.now.visits }
        ensures { TripsHold self.now.problem (type_of_vehicle self.now.problem self.now.vehicle) result (run_before self.now.visits count) }
    {
        let reloads = self.kept.marks[count as usize].reloads;
        self.kept.before.from_front(count as usize, reloads)
    }

    /// The segment of the visits from one on, with the end.
    fn segment_after(&self, first: u32) -> TripSegment
        requires { first ≤ length self.now.visits }
        ensures { TripsHold self.now.problem (type_of_vehicle self.now.problem self.now.vehicle) result (run_from self.now.visits first) }
    {
        let count = self.visits.len();
        let all = self.kept.marks[count].reloads;
        let before = self.kept.marks[first as usize].reloads;
        self.kept
            .after
            .from_back(count - first as usize, all - before)
    }

    /// The segment of some visits.
    fn segment_between(&self, first: u32, end: u32) -> TripSegment
        requires in_order { first < end }
        requires in_list { end ≤ length self.now.visits }
        ensures { TripsHold self.now.problem (type_of_vehicle self.now.problem self.now.vehicle) result (record { starts = false; visits = slice_range self.now.visits first end; ends = false }) }
    {
        let vehicle_type = self.given.vehicle_type(self.vehicle);
        let marks = self.kept.marks.as_slice();
        let durations = self.kept.durations.as_slice();
        folded(
            self.given,
            vehicle_type,
            self.visits.as_slice(),
            marks,
            durations,
            first as usize,
            end as usize,
        )
    }

    /// The distance of a part of the list.
    pub(crate) fn distance_of(&self, first: u32, end: u32, starts: bool, ends: bool) -> i64
        requires { IsPart (length self.now.visits) first end starts ends }
        ensures in_range { IsTotal result }
        ensures distance { IsPartLength self.now result (record { starts = starts; visits = slice_range self.now.visits first end; ends = ends }) }
    {
        self.validity();
        if starts {
            self.marks()[end as usize].distance
        } else if ends {
            self.driven(first + 1, end + 1)
        } else {
            self.driven(first + 1, end)
        }
    }

    /// The distance from a position to a later one.
    fn driven(&self, from: u32, to: u32) -> i64
        requires some { 1 ≤ from }
        requires in_order { from ≤ to }
        requires in_list { to ≤ length self.now.visits + 1 }
        ensures in_range { IsTotal result }
        ensures distance { IsPartLength self.now result (run_along self.now.visits from to) }
    {
        self.validity();
        let marks = self.marks();
        marks[to as usize].distance - marks[from as usize].distance
    }

    /// The prizes of some visits.
    pub(crate) fn prizes_of(&self, first: u32, end: u32) -> u64
        requires in_order { first ≤ end }
        requires in_list { end ≤ length self.now.visits }
        ensures prizes { result ≡ prizes_of self.now.problem (slice_range self.now.visits first end) }
        ensures small { result ≤ largest_total }
    {
        self.validity();
        let marks = self.marks();
        (marks[end as usize].prize - marks[first as usize].prize) as u64
    }
}

/// The segment of some visits, over the legs that are kept.
fn folded(
    given: &ProblemData,
    vehicle_type: &VehicleType,
    visits: &[Visit],
    marks: &[Mark],
    durations: &[u32],
    first: usize,
    end: usize,
) -> TripSegment
    requires valid { IsValid given.now }
    requires vehicle_type { IsValidType given.now vehicle_type.now }
    requires listed { IsListed given.now visits.now }
    requires marked { IsMarked given.now vehicle_type.now visits.now (length visits.now + 1) marks.now durations.now }
    requires in_order { first < end }
    requires in_list { end ≤ length visits.now }
    ensures { TripsHold given.now vehicle_type.now result (run_up_to false visits.now first end) }
{
    let mut so_far = RunSegment::visit(given, visits[first]);
    for k in first + 1..end {
        let leg = Leg {
            distance: marks[k + 1].leg,
            duration: durations[k + 1],
        };
        so_far = grown_behind(so_far, visits[k], given, vehicle_type, visits, k, leg);
    }
    so_far.trips
}
