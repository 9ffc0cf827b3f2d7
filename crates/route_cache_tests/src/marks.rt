//! Tests of what a route tells of its positions.
use problem_data::{Reads, Steps, Visit};
use route_cache::{Mark, Route};
use sample_problem::problem_of_two_trips;
use std::process::Abort;
use std::test::Fail;

/// A mark without loads.
fn mark(distance: i64, prize: i64, place: u32, reloads: u32, leg: u32, over: u32) -> Mark {
    Mark {
        distance,
        delivery: 0,
        pickup: 0,
        prize,
        place,
        reloads,
        leg,
        over,
    }
}

/// Looks at the marks of the list `1 |0 2`: legs of 5, a prize of 7, and nothing to deliver.
fn look(rt: &impl Abort, marks: &[Mark]) {
    let wanted = [
        mark(0, 0, 0, 0, 0, 0),
        mark(5, 7, 1, 0, 5, 0),
        mark(10, 7, 0, 1, 5, 5),
        mark(15, 7, 2, 1, 5, 0),
        mark(20, 7, 0, 1, 5, 0),
    ];
    assert_eq!(rt; marks, wanted.as_slice());
}

#[test]
fn marks_of_two_trips(rt: HostRuntime) -> Result<(), Fail> {
    let alloc = rt.alloc();
    let mut reads = Steps::new(&rt);
    let given = problem_of_two_trips(alloc)?;
    let visits = [Visit::Client(1), Visit::Reload(0), Visit::Client(2)];
    let route = Route::with_visits(alloc, &given, 0, &visits, &mut reads)?;
    look(&rt, route.marks());
    assert_eq!(rt; route.prizes(), 7);
    Ok(())
}
