//! What stands beside each client of a plan, by one walk over its lists.
ghost use Rattle.std.specs.Prelude.{◌≡◌, ◌+◌, ◌<◌, ◌≤◌, IfOk, IsTrue, length, take};
ghost use Rattle.std.specs.List.{list_all};
ghost use Rattle.problem_data.specs.Places.{place_count};
ghost use Rattle.problem_data.specs.Visits.{place_of};
ghost use Rattle.routing_model.specs.Lawful.{is_lawful, names_place};
ghost use Rattle.routing_model.specs.Routes.{is_visited};
ghost use Rattle.genetic_model.specs.BrokenPairs.{as_neighbour, front_of};
ghost use Rattle.plan_differences.specs.Beside.{AreFlanks, beside_of};
ghost use Rattle.plan_differences.specs.inside.Filling.{AreFilled, flanked};

use crate::flanks::{DEPOT, Flanks, UNVISITED};
use problem_data::{NoMemory, ProblemData, Solution, Visit, VisitList};
use std::alloc::Global;

/// A visit as it stands beside a client.
fn beside(given: &ProblemData, visit: Visit) -> u16
    requires named { IsTrue (names_place given.now visit) }
    ensures { beside_of result ≡ as_neighbour visit }
{
    given.validity();
    match visit {
        Visit::Client(place) => place as u16,
        Visit::Reload(_) => DEPOT,
    }
}

/// What a client that stands directly before these visits has on its right.
fn front_of(given: &ProblemData, visits: &[Visit]) -> u16
    requires named { IsTrue (list_all (names_place given.now) visits.now) }
    ensures { beside_of result ≡ front_of visits.now }
{
    match visits.first() {
        Some(visit) => beside(given, *visit),
        None => DEPOT,
    }
}

/// Writes what stands beside a visit, if it is a client's.
fn put(entries: &mut [Flanks], visit: Visit, flanks: Flanks)
    requires { place_of visit < length entries.old }
    ensures { entries.new ≡ flanked entries.old visit flanks }
{
    if let Visit::Client(place) = visit {
        entries[place as usize] = flanks;
    }
}

/// Writes what stands beside the clients of a vehicle's list, where it is written for all earlier vehicles.
fn fill_list(given: &ProblemData, routes: &[VisitList], vehicle: usize, entries: &mut [Flanks])
    requires lawful { IsTrue (is_lawful given.now routes.now) }
    requires vehicle { vehicle < length routes.now }
    requires filled { AreFilled given.now routes.now (is_visited (take vehicle routes.now)) entries.old }
    ensures { AreFilled given.now routes.now (is_visited (take (vehicle + 1) routes.now)) entries.new }
{
    let visits = routes[vehicle].items();
    let mut left = DEPOT;
    for (at, visit) in visits.iter().enumerate() {
        let right = front_of(given, &visits[at + 1..]);
        put(entries, *visit, Flanks { left, right });
        left = beside(given, *visit);
    }
}

/// Writes what stands beside each client of a plan. Conditions: the plan is lawful, and there is an entry for each place.
pub(crate) fn fill(given: &ProblemData, routes: &[VisitList], entries: &mut [Flanks])
    requires lawful { IsTrue (is_lawful given.now routes.now) }
    requires places { place_count given.now ≤ length entries.old }
    ensures { AreFlanks given.now routes.now entries.new }
{
    entries.fill(UNVISITED);
    for vehicle in 0..routes.len() {
        fill_list(given, routes, vehicle, entries);
    }
}

/// What stands beside each client of a plan, by its place. Condition: the plan is lawful. Refused only where memory runs out.
pub fn flanks_of(
    alloc: Global,
    given: &ProblemData,
    solution: &Solution,
) -> Result<Vec<Flanks>, NoMemory>
    requires { IsTrue (is_lawful given.now solution.now.routes) }
    ensures { IfOk result (λ r. AreFlanks given.now solution.now.routes r.items) }
{
    given.validity();
    let places = given.problem().places.items().len();
    let mut entries = vec![in alloc; UNVISITED; places]?;
    fill(given, solution.routes.items(), entries.as_mut_slice());
    Ok(entries)
}
