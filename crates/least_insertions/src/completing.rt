//! Plans with their missing clients.
ghost use Rattle.std.specs.Prelude.{◌≡◌, ◌+◌, ◌<◌, IfOk, OnOk, IsTrue, insert, length};
ghost use Rattle.std.specs.List.{list_all};
ghost use Rattle.problem_data.specs.declared.visit.Visit.{Visit};
ghost use Rattle.problem_data.specs.Places.{is_client_place, place_count};
ghost use Rattle.routing_model.specs.Lawful.{names_places};
ghost use Rattle.penalty_cost.specs.Plans.{IsWeighed};
ghost use Rattle.genetic_model.specs.Insertion.{completed, completed_with};
ghost use Rattle.genetic_model.proofs.SoundChildren.{IsSound};
ghost use Rattle.least_insertions.specs.inside.Places.{IsMissingIn};
ghost use Rattle.least_insertions.specs.inside.Visited.{AreVisited};

use crate::least_place::least_place;
use crate::missing::is_missing;
use problem_data::{NoMemory, ProblemData, Reads, Steps, Visit, VisitList};
use route_rings::mark_clients;
use routing_model::Weights;
use std::alloc::Global;

/// A list with a client at a position.
fn with_client(
    alloc: Global,
    visits: &[Visit],
    position: u32,
    client: u32,
) -> Result<VisitList, NoMemory>
    requires { position < length visits.now + 1 }
    ensures { IfOk result (λ r. r ≡ insert visits.now position (Visit.Client client)) }
{
    let mut list = Vec::from_slice(alloc, visits)?;
    list.insert(position as usize, Visit::Client(client))?;
    Ok(VisitList::from_vec(list))
}

/// A mark for each client that some lists visit.
fn visited_clients(
    alloc: Global,
    given: &ProblemData,
    routes: &[VisitList],
) -> Result<Vec<bool>, NoMemory>
    requires named { IsTrue (names_places given.now routes.now) }
    ensures length { IfOk result (λ r. length r.items ≡ place_count given.now) }
    ensures marks { IfOk result (λ r. AreVisited r.items routes.now) }
{
    given.validity();
    let mut visited = vec![in alloc; false; given.problem().places.items().len()]?;
    for visits in routes {
        mark_clients(given, visited.as_mut_slice(), visits.items());
    }
    Ok(visited)
}

/// Puts a missing client into its place of least cost.
fn insert_client(
    alloc: Global,
    given: &ProblemData,
    weights: Weights,
    routes: &mut Vec<VisitList>,
    client: u32,
    reads: &mut Steps<Reads>,
) -> Result<(), NoMemory>
    requires missing { IsMissingIn given.now routes.old.items client }
    requires weights { IsWeighed weights }
    ensures { OnOk result (routes.new.items ≡ completed_with given.now weights routes.old.items client) }
{
    let place = least_place(alloc, given, weights, routes.as_slice(), client, reads)?;
    if let Some(place) = place {
        let vehicle = place.vehicle as usize;
        let list = with_client(alloc, routes[vehicle].items(), place.position, client)?;
        routes[vehicle] = list;
    }
    Ok(())
}

/// A plan with its missing clients: by ascending place, each that is required and not visited, and the least member of each required group
/// of which no member is visited, goes to the place at which the plan then costs least, vehicles and positions ascending, the first on a
/// tie. Of the unused vehicles of a type only the least is looked at.
///
/// Conditions: the plan is lawful but for clients that are missing, and no weight exceeds 10^9. Refused only where memory runs out.
pub fn completed(
    alloc: Global,
    given: &ProblemData,
    weights: Weights,
    routes: Vec<VisitList>,
    reads: &mut Steps<Reads>,
) -> Result<Vec<VisitList>, NoMemory>
    requires sound { IsSound given.now routes.items }
    requires weights { IsWeighed weights }
    ensures { IfOk result (λ r. r.items ≡ completed given.now weights routes.items) }
{
    given.validity();
    let mut marks = visited_clients(alloc, given, routes.as_slice())?;
    let visited = marks.as_mut_slice();
    let mut lists = routes;
    let clients = given.client_places();
    for client in clients.start..clients.end {
        if is_missing(given, visited, client) {
            insert_client(alloc, given, weights, &mut lists, client, reads)?;
            visited[client as usize] = true;
        }
    }
    Ok(lists)
}
