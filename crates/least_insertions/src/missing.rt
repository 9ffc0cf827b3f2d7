//! Clients that have to be inserted.
ghost use Rattle.std.specs.Prelude.{◌≡◌, ◌<◌, All, IsTrue, Some, length, nat_le};
ghost use Rattle.std.specs.List.{list_all, list_any};
ghost use Rattle.problem_data.specs.Places.{is_client_place, place_count};
ghost use Rattle.routing_model.specs.Routes.{Routes, is_visited};
ghost use Rattle.genetic_model.specs.Insertion as model;
ghost use Rattle.least_insertions.specs.inside.Visited.{AreVisited};

use penalty_cost::is_required_group;
use problem_data::ProblemData;

/// Whether one of some clients is marked.
fn is_one_marked(marks: &[bool], clients: &[u32]) -> bool
    requires { All (λ client. client < length marks.now) clients.now }
    ensures { (routes : Routes) → AreVisited marks.now routes → result ≡ list_any (is_visited routes) clients.now }
{
    for client in clients {
        if marks[*client as usize] {
            return true;
        }
    }
    false
}

/// Whether no client comes before one.
fn is_least(client: u32, clients: &[u32]) -> bool
    ensures { result ≡ list_all (nat_le client) clients.now }
{
    for other in clients {
        if *other < client {
            return false;
        }
    }
    true
}

/// Whether a client is the least member of a required group of which no member is visited.
fn leads_unserved(given: &ProblemData, visited: &[bool], client: u32, group: u32) -> bool
    requires marks { length visited.now ≡ place_count given.now }
    requires group { group < length given.now.groups }
    ensures { (routes : Routes) → AreVisited visited.now routes → result ≡ model.leads_unserved given.now routes client (Some group) }
{
    given.validity();
    let members = given.problem().groups.items()[group as usize].items();
    is_required_group(given, members)
        && is_least(client, members)
        && !is_one_marked(visited, members)
}

/// Whether a client has to be inserted: it is required and not visited, or is the least member of a required group of which no member is
/// visited.
pub(crate) fn is_missing(given: &ProblemData, visited: &[bool], client: u32) -> bool
    requires marks { length visited.now ≡ place_count given.now }
    requires client { IsTrue (is_client_place given.now client) }
    ensures { (routes : Routes) → AreVisited visited.now routes → result ≡ model.is_missing given.now routes client }
{
    given.validity();
    let about = given.client(client);
    match about.group {
        Some(group) => leads_unserved(given, visited, client, group),
        None => about.prize == 0 && !visited[client as usize],
    }
}
