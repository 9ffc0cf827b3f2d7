//! Tests of views.
ghost use Rattle.std.specs.Prelude.{◌≡◌, [], ◌∷◌};
ghost use Rattle.sample_problem.specs.TwoTrips.{two_trips};

use problem_data::{ProblemData, Reads, Steps, Visit};
use route_cache::{Route, client_view, reload_view};
use sample_problem::problem_of_two_trips;
use segments::DurationSegment;
use std::process::Abort;
use std::test::Fail;

/// How long the vehicle with the list `1 |0 2` drives: 35, from a start at 5.
const DRIVEN: DurationSegment = DurationSegment {
    duration: 35,
    warp: 0,
    earliest: 5,
    latest: 5,
};

/// Looks at the views of the list `1 |0 2`.
fn look(rt: &impl Abort, given: &ProblemData, route: &Route<'_>)
    requires given { given.now ≡ two_trips }
    requires route { route.now ≡ record { problem = two_trips; vehicle = 0; visits = Visit.Client 1 ∷ Visit.Reload 0 ∷ Visit.Client 2 ∷ [] } }
{
    assert_eq!(rt; route.segment().duration, DRIVEN);
    assert_eq!(rt; route.distance(), 20);
    assert_eq!(rt; route.trips().len(), 2);
    assert_eq!(rt; route.before(0).visits().len(), 0);
    assert_eq!(rt; route.after(4).visits().len(), 0);
    assert_eq!(rt; route.before(3).prizes(), 7);
    let alone = client_view(given, 1);
    assert_eq!(rt; alone.visits(), [Visit::Client(1)].as_slice());
    assert_eq!(rt; alone.prizes(), 7);
    assert_eq!(rt;
        reload_view(given, 0).visits(),
        [Visit::Reload(0)].as_slice()
    );
}

/// Looks at distances of views.
fn look_at_distances(rt: &impl Abort, route: &Route<'_>)
    requires { route.now ≡ record { problem = two_trips; vehicle = 0; visits = Visit.Client 1 ∷ Visit.Reload 0 ∷ Visit.Client 2 ∷ [] } }
{
    assert_eq!(rt; route.before(2).distance(), 10);
    assert_eq!(rt; route.after(2).distance(), 10);
    assert_eq!(rt; route.after(4).distance(), 0);
}

/// Looks at what a view is.
fn look_at_positions(rt: &impl Abort, route: &Route<'_>)
    requires { route.now ≡ record { problem = two_trips; vehicle = 0; visits = Visit.Client 1 ∷ Visit.Reload 0 ∷ Visit.Client 2 ∷ [] } }
{
    let view = route.after(3);
    assert_eq!(rt; view.vehicle(), Some(0));
    assert_eq!(rt; view.first(), 2);
    assert_eq!(rt; view.end(), 3);
    assert_eq!(rt; view.starts(), false);
    assert_eq!(rt; view.ends(), true);
}

/// Merges three views of the list `1 |0 2`: the start with the first client, the reload, and the second client with the end.
fn merge_views(rt: &impl Abort, route: &Route<'_>, reads: &mut Steps<Reads>)
    requires { route.now ≡ record { problem = two_trips; vehicle = 0; visits = Visit.Client 1 ∷ Visit.Reload 0 ∷ Visit.Client 2 ∷ [] } }
{
    let first = route.before(1).segment();
    let reload = route.between(2, 2, reads).segment();
    let second = route.after(3).segment();
    let front = first.merge(reload, 5, 10);
    let all = front.merge(second, 5, 10);
    let whole = all.close(10);
    assert_eq!(rt; whole.duration, DRIVEN);
    assert_eq!(rt; whole.excess, 0);
}

#[test]
fn views_of_two_trips(rt: HostRuntime) -> Result<(), Fail> {
    let alloc = rt.alloc();
    let mut reads = Steps::new(&rt);
    let given = problem_of_two_trips(alloc)?;
    let mut route = Route::new(alloc, &given, 0, &mut reads)?;
    let visits = [Visit::Client(1), Visit::Reload(0), Visit::Client(2)];
    route.set_visits(&visits, &mut reads)?;
    look(&rt, &given, &route);
    look_at_positions(&rt, &route);
    look_at_distances(&rt, &route);
    let middle = route.between(2, 2, &mut reads);
    assert_eq!(rt; middle.visits(), [Visit::Reload(0)].as_slice());
    merge_views(&rt, &route, &mut reads);
    assert_eq!(rt; driven_between(&route, &mut reads), 10);
    Ok(())
}

/// Asks a run of visits for its numbers: no leg is read.
fn driven_between(route: &Route<'_>, reads: &mut Steps<Reads>) -> i64
    requires { route.now ≡ record { problem = two_trips; vehicle = 0; visits = Visit.Client 1 ∷ Visit.Reload 0 ∷ Visit.Client 2 ∷ [] } }
    ensures { reads.new ≡ reads.old }
{
    let view = route.between(1, 3, reads);
    view.segment();
    view.distance()
}
