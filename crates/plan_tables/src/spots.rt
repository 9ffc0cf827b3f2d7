//! Where the clients of a plan stand.
ghost use Rattle.std.specs.Prelude.{◌≡◌, ◌+◌, ◌<◌, ◌≤◌, All, IfOk, length};
ghost use Rattle.problem_data.specs.declared.visit.Visit.{Visit};
ghost use Rattle.problem_data.specs.Limits.{most_vehicles, most_visits};
ghost use Rattle.plan_tables.specs.Routes.{lists_of};
ghost use Rattle.plan_tables.specs.inside.Marks.{AreFree, FreesList, MarksList, MarksVisit};
ghost use Rattle.plan_tables.specs.Spots.{AreSpots};

use problem_data::{NoMemory, Visit};
use route_cache::Route;
use std::alloc::Global;

/// Where a client stands: its vehicle, and its place in that vehicle's list, from 1; place 0 where it isn't visited.
#[derive(Clone, Copy, Debug, PartialEq, Eq)]
pub struct Spot {
    pub vehicle: u32,
    pub place: u32,
}

impl Spot {
    /// Nowhere.
    pub const NONE: Spot = Spot {
        vehicle: 0,
        place: 0,
    };
}

/// Says of the client of a visit, if it is one, where it stands.
fn mark_visit(spots: &mut [Spot], spot: Spot, visit: Visit)
    ensures { MarksVisit spot visit spots.old spots.new }
{
    if let Visit::Client(client) = visit
        && (client as usize) < spots.len()
    {
        spots[client as usize] = spot;
    }
}

/// Takes the clients of a list out.
pub(crate) fn free_list(spots: &mut [Spot], visits: &[Visit])
    ensures { FreesList visits.now spots.old spots.new }
{
    for visit in visits {
        mark_visit(spots, Spot::NONE, *visit);
    }
}

/// Marks the clients of a list, from the last one on: where one stands twice, its first place counts.
pub(crate) fn mark_list(spots: &mut [Spot], vehicle: u32, visits: &[Visit])
    requires { length visits.now ≤ most_visits }
    ensures { MarksList vehicle 0 visits.now spots.old spots.new }
{
    let mut left = visits.len();
    while left > 0 {
        left -= 1;
        let place = left as u32 + 1;
        mark_visit(spots, Spot { vehicle, place }, visits[left]);
    }
}

/// Marks the clients of all routes, where none is marked.
fn mark_routes(spots: &mut [Spot], routes: &[Route<'_>])
    requires few { length routes.now ≤ most_vehicles }
    requires free { AreFree (length spots.old) spots.old }
    ensures { AreSpots (length spots.old) (lists_of routes.now) spots.new }
{
    let mut left = routes.len();
    while left > 0 {
        left -= 1;
        let route = &routes[left];
        mark_list(spots, left as u32, route.visits());
    }
}

/// Where the clients of some routes stand, with so many places.
pub(crate) fn spots_of(
    alloc: Global,
    places: usize,
    routes: &[Route<'_>],
) -> Result<Vec<Spot>, NoMemory>
    requires { length routes.now ≤ most_vehicles }
    ensures { IfOk result (λ spots. AreSpots places (lists_of routes.now) spots.items) }
{
    let mut spots = vec![in alloc; Spot::NONE; places]?;
    mark_routes(spots.as_mut_slice(), routes);
    Ok(spots)
}
