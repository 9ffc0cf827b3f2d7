//! The instances of the tests. They know nothing of their values, which keeps their proofs short.
ghost use Rattle.std.specs.Prelude.{IfOk, IsTrue};
ghost use Rattle.routing_model.specs.Lawful.{is_lawful};

use penalty_cost::{is_lawful, is_plan};
use problem_data::{NoMemory, ProblemData, RouteList, Solution, Visit, VisitList};
use std::alloc::Global;
use std::process::Abort;
use std::test::Fail;
use vrp_num::Rounding;
use vrplib_read::read_instance;

/// Three clients, each of which has to be visited, and three vehicles.
const THREE: &str =
    "DIMENSION : 4\nEDGE_WEIGHT_TYPE : EUC_2D\nNODE_COORD_SECTION\n1 0 0\n2 3 4\n3 6 8\n4 0 2\nDEPOT_SECTION\n1\n-1\nEOF\n";

/// Three clients, none of which has to be visited, and three vehicles.
const PRIZES: &str =
    "DIMENSION : 4\nEDGE_WEIGHT_TYPE : EUC_2D\nNODE_COORD_SECTION\n1 0 0\n2 3 4\n3 6 8\n4 0 2\nPRIZE_SECTION\n1 0\n2 5\n3 5\n4 5\nDEPOT_SECTION\n1\n-1\nEOF\n";

/// Five clients to the south, to the west, to the north and to the east of the depot, and where it stands; and five vehicles.
const COMPASS: &str =
    "DIMENSION : 6\nEDGE_WEIGHT_TYPE : EUC_2D\nNODE_COORD_SECTION\n1 1 1\n2 1 0\n3 0 1\n4 1 2\n5 2 1\n6 1 1\nDEPOT_SECTION\n1\n-1\nEOF\n";

/// The problem of a text.
fn problem(alloc: Global, text: &str) -> Result<ProblemData, Fail> {
    let problem = read_instance(alloc, text.as_bytes(), Rounding::Round)?;
    Ok(ProblemData::new(alloc, problem)?)
}

/// Clients at the places 1 to 3, each of which has to be visited, and three vehicles.
pub(crate) fn three_clients(alloc: Global) -> Result<ProblemData, Fail> {
    problem(alloc, THREE)
}

/// Clients at the places 1 to 3, none of which has to be visited, and three vehicles.
pub(crate) fn three_prizes(alloc: Global) -> Result<ProblemData, Fail> {
    problem(alloc, PRIZES)
}

/// Clients at the places 1 to 5, to the south, to the west, to the north and to the east of the depot, and where it stands.
pub(crate) fn compass(alloc: Global) -> Result<ProblemData, Fail> {
    problem(alloc, COMPASS)
}

/// A plan with these clients, one after the other, for the vehicles, each with so many.
pub(crate) fn plan(alloc: Global, clients: &[u32], counts: &[usize]) -> Result<Solution, NoMemory> {
    let mut left = clients.iter();
    let mut routes = Vec::new(alloc);
    for count in counts {
        let mut visits = Vec::new(alloc);
        for client in left.by_ref().take(*count) {
            visits.push(Visit::Client(*client))?;
        }
        routes.push(VisitList::from_vec(visits))?;
    }
    Ok(Solution {
        routes: RouteList::from_vec(routes),
    })
}

/// Fails unless the plan is lawful.
pub(crate) fn expect_lawful(
    rt: &impl Abort,
    alloc: Global,
    given: &ProblemData,
    plan: &Solution,
) -> Result<(), Fail>
    ensures { IfOk result (λ _. IsTrue (is_lawful given.now plan.now.routes)) }
{
    assert!(rt; is_plan(given, plan));
    let lawful = is_lawful(alloc, given, plan)?;
    assert!(rt; lawful);
    Ok(())
}

/// Whether two plans have the same lists.
pub(crate) fn is_same(plan: &Solution, other: &Solution) -> bool {
    let lists = plan.routes.items();
    let others = other.routes.items();
    lists.len() == others.len()
        && lists
            .iter()
            .zip(others)
            .all(|(list, other)| list.items() == other.items())
}
