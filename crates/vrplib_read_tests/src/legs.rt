//! Legs as numbers in the text.
ghost use Rattle.std.specs.Prelude.{◌≡◌, IfOk, length};
ghost use Rattle.problem_data.specs.Places.{place_count};

use problem_data::{Leg, ProblemData, Steps, leg};
use std::alloc::Global;
use std::process::Abort;
use std::test::Fail;
use vrp_num::Rounding;
use vrplib_read::read_instance;

/// The legs of three nodes, each from the node of its row to one before it.
const LOWER_ROW: &str =
    "DIMENSION : 3\nEDGE_WEIGHT_TYPE : EXPLICIT\nEDGE_WEIGHT_FORMAT : LOWER_ROW\nEDGE_WEIGHT_SECTION\n5 6\n7\n";

/// The legs between places 0, 1 and 2, row by row.
const LEGS: [(u32, u32, u32); 9] = [
    (0, 0, 0),
    (0, 1, 5),
    (0, 2, 6),
    (1, 0, 5),
    (1, 1, 0),
    (1, 2, 7),
    (2, 0, 6),
    (2, 1, 7),
    (2, 2, 0),
];

/// The problem of the text above, which has three places and one profile.
fn three_places(rt: &impl Abort, alloc: Global) -> Result<ProblemData, Fail>
    ensures places { IfOk result (λ given. place_count given ≡ 3) }
    ensures profiles { IfOk result (λ given. length given.profiles ≡ 1) }
{
    let problem = read_instance(alloc, LOWER_ROW.as_bytes(), Rounding::Round)?;
    let given = ProblemData::new(alloc, problem)?;
    assert_eq!(rt; given.problem().depots.items().len(), 1);
    assert_eq!(rt; given.problem().clients.items().len(), 2);
    assert_eq!(rt; given.problem().profiles.items().len(), 1);
    Ok(given)
}

#[test]
fn a_lower_triangle_gives_the_legs(rt: HostRuntime) -> Result<(), Fail> {
    let given = three_places(&rt, rt.alloc())?;
    let mut reads = Steps::new(&rt);
    for (from, to, length) in LEGS {
        assert!(rt; from < 3 && to < 3);
        let wanted = Leg {
            distance: length,
            duration: length,
        };
        assert_eq!(rt; leg(&given, 0, from, to, &mut reads), wanted);
    }
    Ok(())
}

#[test]
fn a_vehicle_for_each_client(rt: HostRuntime) -> Result<(), Fail> {
    let given = three_places(&rt, rt.alloc())?;
    assert_eq!(rt; given.vehicles(), 2);
    Ok(())
}
