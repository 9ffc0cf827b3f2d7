//! What routes cost, by what they keep.
ghost use Rattle.std.specs.Prelude.{◌≡◌, ◌≤◌};
ghost use Rattle.routing_model.specs.Cost.{route_cost};
ghost use Rattle.routing_model.specs.Listed.{type_of_vehicle};
ghost use Rattle.trips.specs.WholeRoutes.{IsWhole};
ghost use Rattle.penalty_cost.specs.Plans.{IsWeighed};
ghost use Rattle.penalty_cost.specs.inside.Totals.{most_cost};

use crate::vehicle_cost::whole_cost;
use route_cache::Route;
use routing_model::Weights;
use trips::WholeRoute;

/// What the list of a route adds up to, as the route keeps it.
pub(crate) fn kept_whole(route: &Route<'_>) -> WholeRoute
    ensures { IsWhole route.now.problem (type_of_vehicle route.now.problem route.now.vehicle) route.now.visits result }
{
    WholeRoute {
        segment: route.segment(),
        distance: route.distance(),
        prizes: route.prizes(),
    }
}

/// What the vehicle of a route costs with its present list, by what the route keeps: it reads no leg. See `route_cost`.
///
/// Condition: no weight exceeds 10^9.
pub fn kept_cost(route: &Route<'_>, weights: Weights) -> u128
    requires { IsWeighed weights }
    ensures cost { result ≡ route_cost route.now.problem weights (type_of_vehicle route.now.problem route.now.vehicle) route.now.visits }
    ensures short { result ≤ most_cost }
{
    let given = route.data();
    let vehicle_type = given.vehicle_type(route.vehicle());
    let visits = route.visits();
    whole_cost(
        given,
        vehicle_type,
        !visits.is_empty(),
        kept_whole(route),
        weights,
    )
}
