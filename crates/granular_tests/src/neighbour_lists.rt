//! The neighbours of three clients, at (3, 4), (6, 8) and (0, 2).
use granular::{Proximity, neighbours};
use problem_data::NoMemory;
use sample_problem::problem_of_three_clients;

const WEIGHTS: Proximity = Proximity {
    wait: 200,
    warp: 1000,
};

#[test]
fn lists_the_neighbours_of_three_clients(rt: HostRuntime) -> Result<(), NoMemory> {
    let given = problem_of_three_clients(rt.alloc())?;
    let near = neighbours(&rt, rt.alloc(), &given, 40, WEIGHTS)?;
    assert!(rt; near.of(0).is_empty());
    assert!(rt; near.of(1) == [3, 2].as_slice());
    assert!(rt; near.of(2) == [1, 3].as_slice());
    assert!(rt; near.of(3) == [1, 2].as_slice());
    Ok(())
}

#[test]
fn lists_one_neighbour_each(rt: HostRuntime) -> Result<(), NoMemory> {
    let given = problem_of_three_clients(rt.alloc())?;
    let near = neighbours(&rt, rt.alloc(), &given, 1, WEIGHTS)?;
    assert!(rt; near.of(1) == [3].as_slice());
    assert!(rt; near.of(2) == [1].as_slice());
    assert!(rt; near.of(3) == [1].as_slice());
    Ok(())
}
