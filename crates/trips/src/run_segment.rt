//! What a run of a vehicle's stops adds up to: its trips, its distance and its prizes.
ghost use Rattle.std.specs.Prelude.{◌≡◌, ◌<◌, IsTrue, pos};
ghost use Rattle.problem_data.specs.Places.{is_client_place, is_depot_place, place_count};
ghost use Rattle.problem_data.specs.Reads.{RoseAtMost};
ghost use Rattle.problem_data.specs.Valid.{IsValidType};
ghost use Rattle.routing_model.specs.Lawful.{names_place};
ghost use Rattle.routing_model.specs.Stops.{met};
ghost use Rattle.segments.specs.Distance.{no_distance};
ghost use Rattle.trips.specs.Merging.{merged_trips};
ghost use Rattle.trips.specs.RunSegments.{CanMergeRunSegments, FitTogether, HoldsRun, HoldsVisit, JoinsAt, JoinsRunSegments, end_alone, start_alone};

use crate::trip_segment::TripSegment;
use problem_data::{Leg, ProblemData, Reads, Steps, VehicleType, Visit, Window, leg};
use segments::{DistanceSegment, Segment};

/// What a run of a vehicle's stops adds up to.
#[derive(Clone, Copy, Debug, PartialEq, Eq)]
pub struct RunSegment {
    /// The drive of its stops, and its loads.
    pub trips: TripSegment,
    /// Its legs.
    pub distance: DistanceSegment,
    /// The prizes of its clients, added up.
    pub prizes: u64,
}

impl RunSegment {
    /// The start of a vehicle of this type.
    pub fn start(given: &ProblemData, vehicle_type: &VehicleType) -> RunSegment
        requires { IsValidType given.now vehicle_type.now }
        ensures { HoldsRun given.now vehicle_type.now result start_alone }
    {
        let depot = given.depot(vehicle_type.start);
        let window = meeting(depot.window, vehicle_type.shift);
        RunSegment::stop(TripSegment::departure(depot, window))
    }

    /// The end of a vehicle of this type.
    pub fn end(given: &ProblemData, vehicle_type: &VehicleType) -> RunSegment
        requires { IsValidType given.now vehicle_type.now }
        ensures { HoldsRun given.now vehicle_type.now result end_alone }
    {
        let depot = given.depot(vehicle_type.end);
        let window = meeting(depot.window, vehicle_type.shift);
        RunSegment::stop(TripSegment::arrival(window))
    }

    /// One client, by each type. Condition: the place is a client's.
    #[inline(always)]
    pub fn client(given: &ProblemData, place: u32) -> RunSegment
        requires { IsTrue (is_client_place given.now place) }
        ensures { HoldsVisit given.now (Visit.Client place) result }
    {
        given.validity();
        let client = given.client(place);
        RunSegment {
            trips: TripSegment::client(client),
            distance: DistanceSegment::empty(),
            prizes: client.prize,
        }
    }

    /// One reload, by each type. Condition: the place is a depot's.
    pub fn reload(given: &ProblemData, depot: u32) -> RunSegment
        requires { IsTrue (is_depot_place given.now depot) }
        ensures { HoldsVisit given.now (Visit.Reload depot) result }
    {
        given.validity();
        RunSegment::stop(TripSegment::reload(given.depot(depot)))
    }

    /// One visit, by each type. Condition: it names a place that is there.
    #[inline(always)]
    pub fn visit(given: &ProblemData, visit: Visit) -> RunSegment
        requires { IsTrue (names_place given.now visit) }
        ensures { HoldsVisit given.now visit result }
    {
        match visit {
            Visit::Client(place) => RunSegment::client(given, place),
            Visit::Reload(depot) => RunSegment::reload(given, depot),
        }
    }

    /// Both, `right` behind `self`, with this leg between them, for a vehicle of this capacity.
    ///
    /// Condition: what they add up to is at most 10^16.
    #[inline(always)]
    pub fn merge(self, right: RunSegment, leg: Leg, capacity: u64) -> RunSegment
        requires { CanMergeRunSegments self right leg.distance leg.duration capacity }
        ensures joins { JoinsRunSegments self right leg.distance leg.duration capacity result }
        ensures trips { result.trips ≡ merged_trips self.trips right.trips (pos leg.duration) capacity }
    {
        RunSegment {
            trips: self.trips.merge(right.trips, leg.duration as i64, capacity),
            distance: self.distance.merge(right.distance, leg.distance as i64),
            prizes: self.prizes + right.prizes,
        }
    }

    /// Both, `next` behind `self`, with the leg from the place `last` to the place `first` between them. That leg is read.
    ///
    /// Condition: they hold two runs, one behind the other, of which the one is left at `last` and the other reached at `first`.
    pub fn join(
        self,
        last: u32,
        next: RunSegment,
        first: u32,
        given: &ProblemData,
        vehicle_type: &VehicleType,
        reads: &mut Steps<Reads>,
    ) -> RunSegment
        requires vehicle_type { IsValidType given.now vehicle_type.now }
        requires last { last < place_count given.now }
        requires first { first < place_count given.now }
        requires fit { FitTogether given.now vehicle_type.now self last next first }
        ensures joins { JoinsAt given.now vehicle_type.now self last next first result }
        ensures reads { RoseAtMost 1 reads.old reads.new }
    {
        let leg = leg(given, vehicle_type.profile, last, first, reads);
        self.merge(next, leg, vehicle_type.capacity)
    }

    /// A stop without a client.
    fn stop(trips: TripSegment) -> RunSegment
        ensures trips { result.trips ≡ trips }
        ensures distance { result.distance ≡ no_distance }
        ensures prizes { result.prizes ≡ 0 }
    {
        RunSegment {
            trips,
            distance: DistanceSegment::empty(),
            prizes: 0,
        }
    }
}

/// The times that are in both windows.
fn meeting(window: Window, shift: Window) -> Window
    ensures { result ≡ met window shift }
{
    Window {
        early: window.early.max(shift.early),
        late: window.late.min(shift.late),
    }
}
