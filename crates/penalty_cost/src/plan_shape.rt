//! Whether lists are a plan of a problem.
ghost use Rattle.std.specs.Prelude.{◌≡◌, ◌&&◌, ◌==◌, length};
ghost use Rattle.std.specs.List.{list_all};
ghost use Rattle.problem_data.specs.Places.{vehicle_count};
ghost use Rattle.routing_model.specs.Lawful.{names_place, names_places};

use problem_data::{ProblemData, Solution, Visit, VisitList};

/// Whether a visit is at a place of its kind.
fn names_place(given: &ProblemData, visit: Visit) -> bool
    ensures { result ≡ names_place given.now visit }
{
    let clients = given.client_places();
    match visit {
        Visit::Client(place) => clients.start <= place && place < clients.end,
        Visit::Reload(depot) => depot < clients.start,
    }
}

/// Whether all visits of a list are.
fn all_named(given: &ProblemData, visits: &[Visit]) -> bool
    ensures { result ≡ list_all (names_place given.now) visits.now }
{
    visits.iter().all(|visit| names_place(given, *visit))
}

/// Whether all visits of some lists are.
fn all_lists_named(given: &ProblemData, routes: &[VisitList]) -> bool
    ensures { result ≡ names_places given.now routes.now }
{
    routes.iter().all(|list| all_named(given, list.items()))
}

/// Whether lists are a plan of the problem: there is one for each vehicle, and each visit is at a place of its kind, a client's or a
/// depot's. `is_lawful` may be asked of plans alone.
pub fn is_plan(given: &ProblemData, solution: &Solution) -> bool
    ensures { result ≡ ((length solution.now.routes == vehicle_count given.now) && names_places given.now solution.now.routes) }
{
    let routes = solution.routes.items();
    routes.len() == given.vehicles() as usize && all_lists_named(given, routes)
}
