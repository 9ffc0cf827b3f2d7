//! New routes in their vehicles' places, with what is kept of them.
ghost use Rattle.std.specs.Prelude.{◌≡◌, ◌≢◌, ◌<◌, IfSome, Some, length};
ghost use Rattle.problem_data.specs.Places.{vehicle_count};
ghost use Rattle.penalty_cost.specs.Plans.{IsWeighed};
ghost use Rattle.plan_tables.specs.Figures.{AreFigures};
ghost use Rattle.plan_tables.specs.Routes.{lists_of, placed};
ghost use Rattle.plan_tables.specs.Spots.{AreOnce};
ghost use Rattle.plan_tables.specs.Tables.{HasPlanTables};
ghost use Rattle.plan_tables.specs.Unused.{AreLeast};

use crate::figures::{rest_of, size_of};
use crate::moved_clients::move_clients;
use crate::plan_tables::PlanTables;
use crate::unused::follow_use;
use penalty_cost::kept_cost;
use problem_data::ProblemData;
use route_cache::Route;
use routing_model::Weights;

/// Puts a route into its vehicle's place, if there is one, with what is kept of it.
fn put<'d>(
    given: &ProblemData,
    weights: Weights,
    routes: &mut Vec<Route<'d>>,
    kept: &mut PlanTables,
    route: Option<Route<'d>>,
)
    requires weights { IsWeighed weights }
    requires count { length routes.old.items ≡ vehicle_count given.now }
    requires inside { IfSome route (λ r. r.vehicle < length routes.old.items) }
    requires figures { AreFigures weights routes.old.items kept.old.sizes.items kept.old.rests.items kept.old.costs.items }
    requires least { AreLeast given.now kept.old.sizes.items kept.old.unused.items }
    ensures routes { routes.new.items ≡ placed route.entry routes.old.items }
    ensures figures { AreFigures weights routes.new.items kept.new.sizes.items kept.new.rests.items kept.new.costs.items }
    ensures least { AreLeast given.now kept.new.sizes.items kept.new.unused.items }
    ensures spots { kept.new.spots ≡ kept.old.spots }
{
    if let Some(route) = route {
        let vehicle = route.vehicle() as usize;
        let before = kept.sizes[vehicle];
        kept.sizes[vehicle] = size_of(&route);
        kept.rests[vehicle] = rest_of(&route, weights);
        kept.costs[vehicle] = kept_cost(&route, weights);
        follow_use(
            given,
            kept.sizes.as_slice(),
            kept.unused.as_mut_slice(),
            route.vehicle(),
            before,
        );
        routes[vehicle] = route;
    }
}

/// Puts a new route into its vehicle's place, and a second one, if there is one, and tells the tables. It takes no memory.
///
/// Conditions: no weight exceeds 10^9; the tables are those of the routes, of which there is one for each vehicle; the vehicles of
/// the new routes are in range, and differ; no client stands twice in the lists, neither before nor after.
pub fn install<'d>(
    given: &ProblemData,
    weights: Weights,
    routes: &mut Vec<Route<'d>>,
    kept: &mut PlanTables,
    route: Route<'d>,
    other: Option<Route<'d>>,
)
    requires weights { IsWeighed weights }
    requires tables { HasPlanTables given.now weights routes.old.items kept.old }
    requires count { length routes.old.items ≡ vehicle_count given.now }
    requires inside { route.vehicle < length routes.old.items }
    requires other_inside { IfSome other (λ r. r.vehicle < length routes.old.items) }
    requires apart { IfSome other (λ r. r.vehicle ≢ route.vehicle) }
    requires once { AreOnce (lists_of routes.old.items) }
    requires once_after { AreOnce (lists_of (placed other (placed (Some route) routes.old.items))) }
    ensures routes { routes.new.items ≡ placed other.entry (placed (Some route.entry) routes.old.items) }
    ensures tables { HasPlanTables given.now weights routes.new.items kept.new }
{
    move_clients(kept.spots.as_mut_slice(), routes.as_slice(), &route, &other);
    put(given, weights, routes, kept, Some(route));
    put(given, weights, routes, kept, other);
}
