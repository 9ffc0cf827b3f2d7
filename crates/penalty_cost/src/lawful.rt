//! Whether plans are lawful.
ghost use Rattle.std.specs.Prelude.{◌≡◌, ◌<◌, ◌≤◌, All, IfOk, IsTrue, List, length, nat_eq, nat_le, true, zip, if◌then◌else◌};
ghost use Rattle.std.specs.List.{list_all, list_any};
ghost use Rattle.problem_data.specs.declared.problem.VehicleType.{VehicleType};
ghost use Rattle.problem_data.specs.declared.visit.Visit.{Visit};
ghost use Rattle.problem_data.specs.Places.{fleet, is_client_place, place_count, vehicle_count};
ghost use Rattle.routing_model.specs.Lawful.{is_allowed, is_lawful, is_required, is_required_group, names_places, reloads_as_allowed, serves_groups, serves_required, visits_at_most_once};
ghost use Rattle.routing_model.specs.Routes.{is_visited, visit_count};
ghost use Rattle.routing_model.specs.Tidy.{is_tidy};
ghost use Rattle.penalty_cost.specs.inside.Counts.{AddsTidiness, CountsMembers, CountsVisit, CountsVisits, IsAnswer, IsCounted, IsGroupAnswer};

use problem_data::{NoMemory, ProblemData, Solution, VehicleType, Visit, VisitList};
use std::alloc::Global;

/// Whether a list's last visits are tidy, by what stands before them.
#[derive(Clone, Copy)]
struct Tidiness {
    /// Whether one of them is a client's.
    used: bool,
    /// Whether they are tidy behind a client.
    behind_client: bool,
    /// Whether they are tidy behind a reload or at the start.
    behind_other: bool,
}

/// The tidiness with a visit before it.
fn with_visit(tidiness: Tidiness, visit: Visit) -> Tidiness
    ensures { AddsTidiness tidiness visit result }
{
    match visit {
        Visit::Client(_) => Tidiness {
            used: true,
            behind_client: tidiness.behind_client,
            behind_other: tidiness.behind_client,
        },
        Visit::Reload(_) => Tidiness {
            used: tidiness.used,
            behind_client: tidiness.used && tidiness.behind_other,
            behind_other: false,
        },
    }
}

/// Whether a list is tidy: each reload stands directly behind a client, and some client comes after it.
fn is_tidy(visits: &[Visit]) -> bool
    ensures { result ≡ is_tidy visits.now }
{
    let mut tidiness = Tidiness {
        used: false,
        behind_client: true,
        behind_other: true,
    };
    let mut left = visits.len();
    while left > 0 {
        left -= 1;
        tidiness = with_visit(tidiness, visits[left]);
    }
    tidiness.behind_other
}

/// Whether each list is tidy.
fn are_tidy(routes: &[VisitList]) -> bool
    ensures { result ≡ list_all is_tidy routes.now }
{
    for visits in routes {
        if !is_tidy(visits.items()) {
            return false;
        }
    }
    true
}

/// Counts a visit in the table, at most two.
fn count_visit(table: &mut [u8], visit: Visit)
    ensures counts { CountsVisit table.old visit table.new }
{
    if let Visit::Client(place) = visit
        && (place as usize) < table.len()
        && table[place as usize] < 2
    {
        table[place as usize] += 1;
    }
}

/// Counts the visits of a list in the table.
fn count_visits(table: &mut [u8], visits: &[Visit])
    ensures { CountsVisits table.old visits.now table.new }
{
    for visit in visits {
        count_visit(table, *visit);
    }
}

/// How often each place is visited, cut to two.
fn visit_counts(alloc: Global, places: u32, routes: &[VisitList]) -> Result<Vec<u8>, NoMemory>
    ensures places { IfOk result (λ table. length table.items ≡ places) }
    ensures counts { IfOk result (λ table. IsCounted (visit_count routes.now) table.items) }
{
    let mut table = vec![in alloc; 0u8; places as usize]?;
    for visits in routes {
        count_visits(&mut table, visits.items());
    }
    Ok(table)
}

/// Whether a place isn't visited twice.
fn is_once(counts: &[u8], place: usize) -> bool
    requires { place < length counts.now }
    ensures { IsAnswer counts.now (λ routes. nat_le (visit_count routes place) 1) result }
{
    counts[place] < 2
}

/// Whether no client is visited twice.
fn at_most_once(given: &ProblemData, counts: &[u8]) -> bool
    requires places { length counts.now ≡ place_count given.now }
    ensures { IsAnswer counts.now (visits_at_most_once given.now) result }
{
    let problem = given.problem();
    let depots = problem.depots.items().len();
    for place in depots..counts.len() {
        if !is_once(counts, place) {
            return false;
        }
    }
    true
}

/// Whether a client has to be visited: it has no group, and its prize is 0.
fn is_required(given: &ProblemData, place: u32) -> bool
    requires { IsTrue (is_client_place given.now place) }
    ensures { result ≡ is_required given.now place }
{
    let client = given.client(place);
    client.group.is_none() && client.prize == 0
}

/// Whether a client is visited.
fn is_visited(counts: &[u8], place: u32) -> bool
    requires { place < length counts.now }
    ensures { IsAnswer counts.now (λ routes. is_visited routes place) result }
{
    counts[place as usize] > 0
}

/// One where it holds.
fn tally(holds: bool) -> usize
    ensures value { result ≡ (if holds then 1 else 0) }
    ensures short { result ≤ 1 }
{
    if holds { 1 } else { 0 }
}

/// Whether a client is visited, or needn't be.
fn is_served(given: &ProblemData, counts: &[u8], place: u32) -> bool
    requires places { length counts.now ≡ place_count given.now }
    requires client { IsTrue (is_client_place given.now place) }
    ensures { IsAnswer counts.now (λ routes. if is_required given.now place then is_visited routes place else true) result }
{
    is_visited(counts, place) || !is_required(given, place)
}

/// Whether each required client is visited.
fn serves_required(given: &ProblemData, counts: &[u8]) -> bool
    requires places { length counts.now ≡ place_count given.now }
    ensures { IsAnswer counts.now (serves_required given.now) result }
{
    let problem = given.problem();
    let depots = problem.depots.items().len();
    for place in depots..counts.len() {
        if !is_served(given, counts, place as u32) {
            return false;
        }
    }
    true
}

/// Whether a group, given by its members, is required: whether all of them have the prize 0. Condition: they are clients' places.
pub fn is_required_group(given: &ProblemData, members: &[u32]) -> bool
    requires { All (λ place. IsTrue (is_client_place given.now place)) members.now }
    ensures { result ≡ is_required_group given.now members.now }
{
    for place in members {
        if given.client(*place).prize != 0 {
            return false;
        }
    }
    true
}

/// How many members of a group are visited.
fn visited_members(counts: &[u8], members: &[u32]) -> usize
    requires { All (λ place. place < length counts.now) members.now }
    ensures { CountsMembers counts.now members.now result }
{
    let mut visited = 0;
    for place in members {
        visited += tally(is_visited(counts, *place));
    }
    visited
}

/// Whether exactly one member of a required group is visited, and at most one of another.
fn serves_group(given: &ProblemData, counts: &[u8], members: &[u32]) -> bool
    requires places { length counts.now ≡ place_count given.now }
    requires members { All (λ place. IsTrue (is_client_place given.now place)) members.now }
    ensures { IsGroupAnswer given.now counts.now members.now result }
{
    let visited = visited_members(counts, members);
    if is_required_group(given, members) {
        visited == 1
    } else {
        visited <= 1
    }
}

/// Whether each group is served.
fn serves_groups(given: &ProblemData, counts: &[u8]) -> bool
    requires places { length counts.now ≡ place_count given.now }
    ensures { IsAnswer counts.now (serves_groups given.now) result }
{
    for members in given.problem().groups.items() {
        if !serves_group(given, counts, members.items()) {
            return false;
        }
    }
    true
}

/// Whether a depot is one of these.
fn is_among(depot: u32, depots: &[u32]) -> bool
    ensures { result ≡ list_any (nat_eq depot) depots.now }
{
    for other in depots {
        if depot == *other {
            return true;
        }
    }
    false
}

/// Whether a visit is a client's, or a reload at a depot that the type allows.
fn is_allowed(vehicle_type: &VehicleType, visit: Visit) -> bool
    ensures { result ≡ is_allowed vehicle_type.now visit }
{
    match visit {
        Visit::Client(_) => true,
        Visit::Reload(depot) => is_among(depot, vehicle_type.reload_depots.items()),
    }
}

/// Whether the reloads of a list are at depots that the type allows, and at most in its number.
fn reloads_as_allowed(vehicle_type: &VehicleType, visits: &[Visit]) -> bool
    ensures { result ≡ reloads_as_allowed vehicle_type.now visits.now }
{
    let mut reloads = 0usize;
    for visit in visits {
        if !is_allowed(vehicle_type, *visit) {
            return false;
        }
        if let Visit::Reload(_) = *visit {
            reloads += 1;
        }
    }
    reloads <= vehicle_type.reloads as usize
}

/// Whether the reloads of each list are as its vehicle's type allows.
fn all_reloads_as_allowed(given: &ProblemData, routes: &[VisitList]) -> bool
    requires { length routes.now ≡ vehicle_count given.now }
    ensures { result ≡ list_all (λ (v : VehicleType × List Visit). reloads_as_allowed v.0 v.1) (zip (fleet given.now) routes.now) }
{
    given.vehicles();
    for (vehicle, visits) in routes.iter().enumerate() {
        if !reloads_as_allowed(given.vehicle_type(vehicle as u32), visits.items()) {
            return false;
        }
    }
    true
}

/// Whether a plan is lawful: no client is visited twice, each required client is visited, exactly one member of each required group
/// and at most one of another, each list is tidy, and its reloads are at depots that its vehicle's type allows, at most in the
/// type's number.
///
/// Conditions: there is one list for each vehicle, and each visit names a place of its vehicle_type. It takes one byte for each
/// place; refused only where memory runs out.
pub fn is_lawful(alloc: Global, given: &ProblemData, solution: &Solution) -> Result<bool, NoMemory>
    requires one_list_each { length solution.now.routes ≡ vehicle_count given.now }
    requires named { IsTrue (names_places given.now solution.now.routes) }
    ensures { IfOk result (λ lawful. lawful ≡ is_lawful given.now solution.now.routes) }
{
    let routes = solution.routes.items();
    let problem = given.problem();
    let places = problem.depots.items().len() + problem.clients.items().len();
    let counts = visit_counts(alloc, places as u32, routes)?;
    let counts = counts.as_slice();
    Ok(
        at_most_once(given, counts)
            && serves_required(given, counts)
            && serves_groups(given, counts)
            && are_tidy(routes)
            && all_reloads_as_allowed(given, routes),
    )
}
