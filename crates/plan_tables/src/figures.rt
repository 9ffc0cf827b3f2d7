//! The figures of a route that a search keeps.
ghost use Rattle.std.specs.Prelude.{◌≡◌, ◌≤◌, length};
ghost use Rattle.penalty_cost.specs.Plans.{IsWeighed};
ghost use Rattle.plan_tables.specs.Figures.{rest_in, size_in};

use penalty_cost::kept_cost;
use route_cache::Route;
use routing_model::Weights;

/// Where a rest is cut.
const LARGEST_REST: u128 = 1 << 61;

/// How many visits a route has.
pub(crate) fn size_of(route: &Route<'_>) -> u32
    ensures { result ≡ size_in route.now }
{
    route.visits().len() as u32
}

/// What a route costs besides its fixed cost and its distance at the unit cost, cut at 2^61.
pub(crate) fn rest_of(route: &Route<'_>, weights: Weights) -> i64
    requires { IsWeighed weights }
    ensures { result ≡ rest_in weights route.now }
{
    let vehicle_type = route.data().vehicle_type(route.vehicle());
    let driven = u128::from(vehicle_type.unit_distance) * route.distance() as u128;
    let cost = kept_cost(route, weights);
    let rest = cost
        .saturating_sub(u128::from(vehicle_type.fixed))
        .saturating_sub(driven);
    rest.min(LARGEST_REST) as i64
}
