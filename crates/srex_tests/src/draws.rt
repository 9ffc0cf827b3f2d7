//! Three clients that have to be visited, in a random order and dealt out, by seed 1.
use crate::instances::{is_same, plan, three_clients};
use srex::{random_order, random_solution};
use std::test::Fail;
use vrp_num::Xor128;

#[test]
fn orders_three_clients_by_seed_one(rt: HostRuntime) -> Result<(), Fail> {
    let alloc = rt.alloc();
    let given = three_clients(alloc)?;
    let mut words = Xor128::seeded(1);
    let order = random_order(alloc, &given, &mut words)?;
    assert!(rt; order.as_slice() == [2, 1, 3].as_slice());
    Ok(())
}

#[test]
fn deals_three_clients_by_seed_one(rt: HostRuntime) -> Result<(), Fail> {
    let alloc = rt.alloc();
    let given = three_clients(alloc)?;
    let mut words = Xor128::seeded(1);
    let dealt = random_solution(alloc, &given, &mut words)?;
    let expected = plan(alloc, &[2, 1, 3], &[1, 1, 1])?;
    assert!(rt; is_same(&dealt, &expected));
    Ok(())
}
