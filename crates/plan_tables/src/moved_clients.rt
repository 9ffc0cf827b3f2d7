//! Moving the clients of a gain's vehicles to where they stand after it.
ghost use Rattle.std.specs.Prelude.{◌≡◌, ◌≢◌, ◌<◌, IfSome, Some, length};
ghost use Rattle.plan_tables.specs.Routes.{lists_of, placed};
ghost use Rattle.plan_tables.specs.inside.Moving.{Enters, Leaves};
ghost use Rattle.plan_tables.specs.Spots.{AreOnce, AreSpots};

use crate::spots::{Spot, free_list, mark_list};
use route_cache::Route;

/// Takes the clients out that the vehicle of a new route visits, if there is one.
fn leave(spots: &mut [Spot], routes: &[Route<'_>], new: &Option<Route<'_>>)
    requires { IfSome new.now (λ r. r.vehicle < length routes.now) }
    ensures { Leaves (lists_of routes.now) new.now spots.old spots.new }
{
    if let Some(route) = new {
        free_list(spots, routes[route.vehicle() as usize].visits());
    }
}

/// Marks the clients of a new route, if there is one.
fn enter(spots: &mut [Spot], new: &Option<Route<'_>>)
    ensures { Enters new.now spots.old spots.new }
{
    if let Some(route) = new {
        mark_list(spots, route.vehicle(), route.visits());
    }
}

/// Moves the clients of a gain's vehicles: out of their present lists, and into those of the new routes.
pub(crate) fn move_clients(
    spots: &mut [Spot],
    routes: &[Route<'_>],
    route: &Route<'_>,
    other: &Option<Route<'_>>,
)
    requires inside { route.now.vehicle < length routes.now }
    requires other_inside { IfSome other.now (λ r. r.vehicle < length routes.now) }
    requires apart { IfSome other.now (λ r. r.vehicle ≢ route.now.vehicle) }
    requires once { AreOnce (lists_of routes.now) }
    requires once_after { AreOnce (lists_of (placed other.now (placed (Some route.now) routes.now))) }
    requires spots { AreSpots (length spots.old) (lists_of routes.now) spots.old }
    ensures { AreSpots (length spots.old) (lists_of (placed other.now (placed (Some route.now) routes.now))) spots.new }
{
    free_list(spots, routes[route.vehicle() as usize].visits());
    leave(spots, routes, other);
    mark_list(spots, route.vehicle(), route.visits());
    enter(spots, other);
}
