//! The order of routes that lie in the four directions, and of one that lies in none.
ghost use Rattle.std.specs.Prelude.{IsTrue};
ghost use Rattle.routing_model.specs.Lawful.{is_lawful};

use crate::instances::{compass, expect_lawful, plan};
use problem_data::{NoMemory, ProblemData, Solution};
use route_rings::route_order;
use std::alloc::Global;
use std::test::Fail;

/// The order of a plan's routes. Condition: the plan is lawful.
fn order_of(alloc: Global, given: &ProblemData, plan: &Solution) -> Result<Vec<u32>, NoMemory>
    requires { IsTrue (is_lawful given.now plan.now.routes) }
{
    given.validity();
    route_order(alloc, given, plan.routes.items())
}

#[test]
fn routes_go_round_from_the_first_axis(rt: HostRuntime) -> Result<(), Fail> {
    let alloc = rt.alloc();
    let given = compass(alloc)?;
    let parent = plan(alloc, &[1, 2, 3, 4, 5], &[1, 1, 1, 1, 1])?;
    expect_lawful(&rt, alloc, &given, &parent)?;
    let order = order_of(alloc, &given, &parent)?;
    assert!(rt; order.as_slice() == [4, 3, 2, 1, 0].as_slice());
    Ok(())
}
