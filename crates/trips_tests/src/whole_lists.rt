//! Tests of what whole lists add up to.
use problem_data::{Steps, Visit};
use sample_problem::problem_of_two_trips;
use segments::DurationSegment;
use std::test::Fail;
use trips::whole_of;

/// The list `1 |0 2` takes 35 from a start at 5: it waits for the second client's goods.
#[test]
fn a_list_adds_up(rt: HostRuntime) -> Result<(), Fail> {
    let mut reads = Steps::new(&rt);
    let given = problem_of_two_trips(rt.alloc())?;
    let visits = [Visit::Client(1), Visit::Reload(0), Visit::Client(2)];
    let whole = whole_of(&given, given.vehicle_type(0), &visits, &mut reads);
    let wanted = DurationSegment {
        duration: 35,
        warp: 0,
        earliest: 5,
        latest: 5,
    };
    assert_eq!(rt; whole.segment.duration, wanted);
    assert_eq!(rt; whole.segment.excess, 0);
    assert_eq!(rt; (whole.distance, whole.prizes), (20, 7));
    Ok(())
}
