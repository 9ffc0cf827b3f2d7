//! Plans of an instance that is read: what they cost, what they exceed, and whether they are lawful.
ghost use Rattle.std.specs.Prelude.{◌≡◌, [], ◌∷◌, IfOk, length};
ghost use Rattle.problem_data.specs.Places.{vehicle_count};

use penalty_cost::{Assessment, Weights, assess, is_lawful, solution_cost};
use problem_data::{NoMemory, ProblemData, RouteList, Solution, Steps, Visit, VisitList};
use std::alloc::Global;
use std::process::Abort;
use std::test::Fail;
use vrp_num::Rounding;
use vrplib_read::read_instance;

/// Two clients with demands 7 and 8 for vehicles of capacity 10, of which the first has a prize of 4 and needn't be visited.
const PRIZED: &str =
    "DIMENSION : 3\nEDGE_WEIGHT_TYPE : EUC_2D\nCAPACITY : 10\nNODE_COORD_SECTION\n1 0 0\n2 3 4\n3 0 5\nDEMAND_SECTION\n1 0\n2 7\n3 8\nPRIZE_SECTION\n1 0\n2 4\n3 0\nDEPOT_SECTION\n1\n-1\nEOF\n";

const WEIGHTS: Weights = Weights {
    load: 20,
    warp: 6,
    distance: 6,
};

/// The instance above, which has one depot, two clients and two vehicles.
fn prized(rt: &impl Abort, alloc: Global) -> Result<ProblemData, Fail>
    ensures depots { IfOk result (λ given. length given.depots ≡ 1) }
    ensures clients { IfOk result (λ given. length given.clients ≡ 2) }
    ensures vehicles { IfOk result (λ given. vehicle_count given ≡ 2) }
{
    let problem = read_instance(alloc, PRIZED.as_bytes(), Rounding::Round)?;
    let given = ProblemData::new(alloc, problem)?;
    assert_eq!(rt; given.problem().depots.items().len(), 1);
    assert_eq!(rt; given.problem().clients.items().len(), 2);
    assert_eq!(rt; given.vehicles(), 2);
    Ok(given)
}

/// The plan in which the first of two vehicles has this list, and the second none.
fn plan(alloc: Global, visits: &[Visit]) -> Result<Solution, NoMemory>
    ensures { IfOk result (λ plan. plan.routes ≡ visits.now ∷ [] ∷ []) }
{
    let first = VisitList::from_vec(Vec::from_slice(alloc, visits)?);
    let second = VisitList::from_vec(Vec::new(alloc));
    let routes = RouteList::from_vec(Vec::from_array(alloc, [first, second])?);
    Ok(Solution { routes })
}

#[test]
fn a_plan_may_miss_a_prize(rt: HostRuntime) -> Result<(), Fail> {
    let given = prized(&rt, rt.alloc())?;
    let plan = plan(rt.alloc(), &[Visit::Client(2)])?;
    assert!(rt; is_lawful(rt.alloc(), &given, &plan)?);
    let mut reads = Steps::new(&rt);
    assert_eq!(rt; solution_cost(&given, &plan, WEIGHTS, &mut reads), 14);
    Ok(())
}

#[test]
fn a_plan_may_exceed_a_capacity(rt: HostRuntime) -> Result<(), Fail> {
    let given = prized(&rt, rt.alloc())?;
    let plan = plan(rt.alloc(), &[Visit::Client(1), Visit::Client(2)])?;
    assert!(rt; is_lawful(rt.alloc(), &given, &plan)?);
    let mut reads = Steps::new(&rt);
    assert_eq!(rt; solution_cost(&given, &plan, WEIGHTS, &mut reads), 113);
    let excess = Assessment {
        load: 5,
        warp: 0,
        distance: 0,
    };
    assert_eq!(rt; assess(&given, &plan, &mut reads), excess);
    Ok(())
}

#[test]
fn a_plan_may_not_miss_a_client_without_prize(rt: HostRuntime) -> Result<(), Fail> {
    let given = prized(&rt, rt.alloc())?;
    let plan = plan(rt.alloc(), &[])?;
    assert!(rt; !is_lawful(rt.alloc(), &given, &plan)?);
    Ok(())
}
