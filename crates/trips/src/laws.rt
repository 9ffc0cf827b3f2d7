//! What the definitions and the segments say of one another.
ghost use Rattle.trips.specs.Bounds.{ClosedTripsAreBounded, MergedTripsAreBounded};
ghost use Rattle.trips.specs.Joints.{JointsTidy};
ghost use Rattle.trips.specs.Laws.{RoutesAreBoundedByStops, RoutesTellDrives, RunsCanBeMerged, WholeRunsCanBeClosed};
ghost use Rattle.trips.specs.RunEnds.{RunsLeaveAtTheirLast, RunsReachTheirFirst};

/// Segments that stand for runs of a valid problem, of no more visits than a vehicle can have, meet the conditions of merging and
/// closing.
pub fn segments_of_runs_are_in_range()
    ensures merge { RunsCanBeMerged }
    ensures close { WholeRunsCanBeClosed }
{}

/// The segment of a whole route tells its drive from the best start.
pub fn routes_tell_their_drives()
    ensures { RoutesTellDrives }
{}

/// What a vehicle's list takes and exceeds is at most so much for each of its stops.
pub fn routes_are_bounded_by_stops()
    ensures { RoutesAreBoundedByStops }
{}

/// Where a beginning of a tidy list and an ending of another are joined, at most one visit isn't tidy: the one that `tidy_joint`
/// names.
pub fn joints_name_what_is_not_tidy()
    ensures { JointsTidy }
{}

/// Merged trips take at least what the parts of both take and the leg between them, and a whole route at least what its parts take.
pub fn trips_take_at_least_what_their_parts_take()
    ensures merged { MergedTripsAreBounded }
    ensures closed { ClosedTripsAreBounded }
{}

/// A run without its end is left at its last visit, and one without its start is reached at its first.
pub fn runs_leave_and_reach_their_visits()
    ensures leaves { RunsLeaveAtTheirLast }
    ensures reaches { RunsReachTheirFirst }
{}
