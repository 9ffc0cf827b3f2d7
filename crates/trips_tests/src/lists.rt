//! Tests of what joins and cuts lists.
use problem_data::Visit;
use std::test::Fail;
use trips::{Joint, Trip, tidy_joint, trips_of};

#[test]
fn untidy_reloads_are_dropped(rt: HostRuntime) {
    let client = Some(Visit::Client(1));
    let reload = Some(Visit::Reload(0));
    assert_eq!(rt; tidy_joint(reload, reload), Joint::DropRight);
    assert_eq!(rt; tidy_joint(None, reload), Joint::DropRight);
    assert_eq!(rt; tidy_joint(reload, None), Joint::DropLeft);
    assert_eq!(rt; tidy_joint(reload, client), Joint::Keep);
    assert_eq!(rt; tidy_joint(client, reload), Joint::Keep);
}

#[test]
fn trips_lie_between_reloads(rt: HostRuntime) -> Result<(), Fail> {
    let alloc = rt.alloc();
    let visits = [Visit::Client(1), Visit::Reload(0), Visit::Client(2)];
    let trips = trips_of(alloc, &visits)?;
    let wanted = [Trip { first: 0, end: 1 }, Trip { first: 2, end: 3 }];
    assert_eq!(rt; trips.as_slice(), wanted.as_slice());
    Ok(())
}
