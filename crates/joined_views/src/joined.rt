//! What a vehicle's new list adds up to, put together from its views.
ghost use Rattle.std.specs.Prelude.{◌≡◌, ◌+◌, ◌-◌, ◌*◌, ◌<◌, ◌≤◌, All, length};
ghost use Rattle.problem_data.specs.Reads.{RoseAtMost};
ghost use Rattle.segments.specs.Totals.{largest_total};
ghost use Rattle.trips.specs.RunSegments.{HoldsRun, prizes_of};
ghost use Rattle.trips.specs.Runs.{whole};
ghost use Rattle.trips.specs.WholeRoutes.{IsWhole};
ghost use Rattle.trips.specs.inside.LastPlaces.{place_behind};
ghost use Rattle.joined_views.specs.Views.{IsNewList, is_some_list, lent_by, views_reads};
ghost use Rattle.joined_views.specs.inside.Joined.{IsOpen, anew_at, anew_before, anew_behind, begun_count, begun_run, is_ended, open_count, place_ahead};

use crate::lent_run::lent_run;
use crate::open_run::OpenRun;
use problem_data::{ProblemData, Reads, Steps, VehicleType, Visit};
use route_cache::View;
use trips::{RunSegment, WholeRoute};

/// How many of the first views have the start.
fn begun_count(views: &[View<'_>]) -> usize
    ensures { result ≡ begun_count views.now }
{
    if views.is_empty() || !views[0].starts() {
        0
    } else {
        1
    }
}

/// Whether the last view has the end.
fn is_ended(views: &[View<'_>]) -> bool
    ensures { result ≡ is_ended views.now }
{
    let count = views.len();
    if count == 0 {
        false
    } else {
        views[count - 1].ends()
    }
}

/// How many views there are before one with the end.
fn open_count(views: &[View<'_>]) -> usize
    ensures { result ≡ open_count views.now }
{
    if is_ended(views) {
        views.len() - 1
    } else {
        views.len()
    }
}

/// Whether some views lend a visit.
pub fn lends_some(views: &[View<'_>]) -> bool
    ensures { result ≡ is_some_list (lent_by views.now) }
{
    let mut some = false;
    for view in views {
        some = some || !view.visits().is_empty();
    }
    some
}

/// The prizes of the clients that some views lend.
pub fn lent_prizes(given: &ProblemData, views: &[View<'_>]) -> u64
    requires few { length views.now ≤ 8 }
    requires same { All (λ view. view.problem ≡ given.now) views.now }
    ensures prizes { result ≡ prizes_of given.now (lent_by views.now) }
    ensures short { result ≤ 8 * largest_total }
{
    let mut prizes = 0;
    for view in views {
        prizes += view.prizes();
    }
    prizes
}

/// The place of the first visit, or the given place where there is none.
fn first_place(visits: &[Visit], place: u32) -> u32
    ensures { result ≡ place_ahead visits.now place }
{
    if visits.is_empty() {
        place
    } else {
        visits[0].place()
    }
}

/// The place of the last visit, or the given place where there is none.
fn last_place(place: u32, visits: &[Visit]) -> u32
    ensures { result ≡ place_behind place visits.now }
{
    let count = visits.len();
    if count == 0 {
        place
    } else {
        visits[count - 1].place()
    }
}

/// The beginning: the first view, where it has the start, or the start alone.
fn begun(
    given: &ProblemData,
    vehicle_type: &VehicleType,
    views: &[View<'_>],
    reads: &mut Steps<Reads>,
) -> OpenRun
    requires side { IsNewList given.now vehicle_type.now views.now }
    ensures front { IsOpen given.now vehicle_type.now result (begun_run views.now (begun_count views.now)) }
    ensures reads { RoseAtMost (anew_before given.now vehicle_type.now views.now (begun_count views.now)) reads.old reads.new }
{
    given.validity();
    if begun_count(views) == 0 {
        return OpenRun {
            so_far: RunSegment::start(given, vehicle_type),
            last: vehicle_type.start,
        };
    }
    let view = &views[0];
    OpenRun {
        so_far: lent_run(given, vehicle_type, view, reads),
        last: last_place(vehicle_type.start, view.visits()),
    }
}

/// One view more behind a beginning.
fn followed(
    front: OpenRun,
    given: &ProblemData,
    vehicle_type: &VehicleType,
    views: &[View<'_>],
    k: usize,
    reads: &mut Steps<Reads>,
) -> OpenRun
    requires side { IsNewList given.now vehicle_type.now views.now }
    requires begun { begun_count views.now ≤ k }
    requires in_list { k < open_count views.now }
    requires front { IsOpen given.now vehicle_type.now front (begun_run views.now k) }
    ensures front { IsOpen given.now vehicle_type.now result (begun_run views.now (k + 1)) }
    ensures reads { RoseAtMost (1 + anew_at given.now vehicle_type.now views.now k) reads.old reads.new }
{
    given.validity();
    let view = &views[k];
    let visits = view.visits();
    let next = lent_run(given, vehicle_type, view, reads);
    let first = first_place(visits, vehicle_type.end);
    let last = last_place(vehicle_type.start, visits);
    front.follow(next, first, last, given, vehicle_type, reads)
}

/// All views before the end.
fn before_end(
    given: &ProblemData,
    vehicle_type: &VehicleType,
    views: &[View<'_>],
    reads: &mut Steps<Reads>,
) -> OpenRun
    requires side { IsNewList given.now vehicle_type.now views.now }
    ensures front { IsOpen given.now vehicle_type.now result (begun_run views.now (open_count views.now)) }
    ensures reads { RoseAtMost (open_count views.now - begun_count views.now + anew_before given.now vehicle_type.now views.now (open_count views.now)) reads.old reads.new }
{
    let mut front = begun(given, vehicle_type, views, reads);
    for k in begun_count(views)..open_count(views) {
        front = followed(front, given, vehicle_type, views, k, reads);
    }
    front
}

/// With the last view, where it has the end, or the end alone.
fn ended(
    front: OpenRun,
    given: &ProblemData,
    vehicle_type: &VehicleType,
    views: &[View<'_>],
    reads: &mut Steps<Reads>,
) -> RunSegment
    requires side { IsNewList given.now vehicle_type.now views.now }
    requires front { IsOpen given.now vehicle_type.now front (begun_run views.now (open_count views.now)) }
    ensures holds { HoldsRun given.now vehicle_type.now result (whole (lent_by views.now)) }
    ensures reads { RoseAtMost (1 + anew_behind given.now vehicle_type.now views.now (open_count views.now)) reads.old reads.new }
{
    given.validity();
    let count = open_count(views);
    if count == views.len() {
        let end = RunSegment::end(given, vehicle_type);
        return front.so_far.join(
            front.last,
            end,
            vehicle_type.end,
            given,
            vehicle_type,
            reads,
        );
    }
    let view = &views[count];
    let end = lent_run(given, vehicle_type, view, reads);
    let first = first_place(view.visits(), vehicle_type.end);
    front
        .so_far
        .join(front.last, end, first, given, vehicle_type, reads)
}

/// What a side's new list adds up to. It reads one leg for each joint of two views, or of a view and a stop that no view has, and
/// one for each visit of a view of another profile.
pub fn new_whole(
    given: &ProblemData,
    vehicle_type: &VehicleType,
    views: &[View<'_>],
    reads: &mut Steps<Reads>,
) -> WholeRoute
    requires side { IsNewList given.now vehicle_type.now views.now }
    ensures whole { IsWhole given.now vehicle_type.now (lent_by views.now) result }
    ensures reads { RoseAtMost (views_reads given.now vehicle_type.now views.now) reads.old reads.new }
{
    given.validity();
    let front = before_end(given, vehicle_type, views, reads);
    let all = ended(front, given, vehicle_type, views, reads);
    WholeRoute {
        segment: all.trips.close(vehicle_type.capacity),
        distance: all.distance.distance,
        prizes: all.prizes,
    }
}
