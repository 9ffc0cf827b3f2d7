//! Tests of what is looked up in a problem.
ghost use Rattle.std.specs.Prelude.{◌≡◌};
ghost use Rattle.sample_problem.specs.ThreeClients.{three_clients};

use problem_data::{Leg, ProblemData, Steps, Visit, leg};
use sample_problem::problem_of_three_clients;
use std::process::Abort;
use std::test::Fail;

/// Looks at each vehicle and place.
fn look(rt: &impl Abort, given: &ProblemData)
    requires { given.now ≡ three_clients }
{
    assert_eq!(rt; given.problem().clients.items().len(), 3);
    assert_eq!(rt; given.vehicles(), 3);
    assert_eq!(rt; given.type_of(0), 0);
    assert_eq!(rt; given.type_of(2), 1);
    assert_eq!(rt; given.vehicle_type(0).fixed, 20);
    assert_eq!(rt; given.vehicle_type(2).fixed, 0);
    assert_eq!(rt; given.depot(0).service, 0);
    assert_eq!(rt; given.client(3).delivery, 1);
    assert_eq!(rt; given.visit_of(0), [Visit::Reload(0)].as_slice());
    assert_eq!(rt; given.visit_of(3), [Visit::Client(3)].as_slice());
    let clients = given.client_places();
    assert_eq!(rt; clients.start, 1);
    assert_eq!(rt; clients.end, 4);
}

#[test]
fn looks_things_up(rt: HostRuntime) -> Result<(), Fail> {
    let given = problem_of_three_clients(rt.alloc())?;
    look(&rt, &given);
    Ok(())
}

#[test]
fn legs_are_counted(rt: HostRuntime) -> Result<(), Fail> {
    let given = problem_of_three_clients(rt.alloc())?;
    let mut reads = Steps::new(&rt);
    let wanted = Leg {
        distance: 8,
        duration: 8,
    };
    assert_eq!(rt; leg(&given, 0, 3, 2, &mut reads), wanted);
    Ok(())
}
