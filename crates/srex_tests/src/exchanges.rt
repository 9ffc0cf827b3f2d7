//! Children of plans that are alike, and of a plan and an empty one.
use crate::instances::{expect_lawful, is_same, plan, three_clients, three_prizes};
use problem_data::Steps;
use routing_model::Weights;
use srex::exchange;
use std::test::Fail;
use vrp_num::Xor128;

const WEIGHTS: Weights = Weights {
    load: 20,
    warp: 6,
    distance: 6,
};

#[test]
fn the_child_of_a_plan_and_itself_is_that_plan(rt: HostRuntime) -> Result<(), Fail> {
    let alloc = rt.alloc();
    let mut reads = Steps::new(&rt);
    let given = three_clients(alloc)?;
    let parent = plan(alloc, &[3, 1, 2], &[2, 0, 1])?;
    expect_lawful(&rt, alloc, &given, &parent)?;
    let mut words = Xor128::seeded(1);
    let child = exchange(
        alloc, &given, &parent, &parent, WEIGHTS, &mut words, &mut reads,
    )?;
    assert!(rt; is_same(&child, &parent));
    let mut drawn = Xor128::seeded(1);
    drawn.next();
    drawn.next();
    assert_eq!(rt; words.next(), drawn.next());
    Ok(())
}

#[test]
fn the_child_of_a_plan_and_an_empty_one_is_that_plan(rt: HostRuntime) -> Result<(), Fail> {
    let alloc = rt.alloc();
    let mut reads = Steps::new(&rt);
    let given = three_prizes(alloc)?;
    let parent = plan(alloc, &[3, 1], &[1, 0, 1])?;
    let empty = plan(alloc, &[], &[0, 0, 0])?;
    expect_lawful(&rt, alloc, &given, &parent)?;
    expect_lawful(&rt, alloc, &given, &empty)?;
    let mut words = Xor128::seeded(1);
    let child = exchange(
        alloc, &given, &parent, &empty, WEIGHTS, &mut words, &mut reads,
    )?;
    assert!(rt; is_same(&child, &parent));
    let mut drawn = Xor128::seeded(1);
    assert_eq!(rt; words.next(), drawn.next());
    Ok(())
}
