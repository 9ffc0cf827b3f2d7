//! What a search keeps beside its lists.
ghost use Rattle.std.specs.Prelude.{◌≡◌, ◌<◌, ◌≤◌, IfOk, All, length, map};
ghost use Rattle.problem_data.specs.Places.{place_count, vehicle_count};
ghost use Rattle.routing_model.specs.Listed.{IsListed};
ghost use Rattle.penalty_cost.specs.Plans.{IsWeighed};
ghost use Rattle.plan_tables.specs.Routes.{AreRoutes, lists_of};
ghost use Rattle.problem_data.specs.Limits.{most_vehicles};
ghost use Rattle.plan_tables.specs.Spots.{AreSpots};
ghost use Rattle.plan_tables.specs.Tables.{HasPlanTables};
ghost use Rattle.plan_tables.specs.Figures.{cost_in, rest_in, size_in};
ghost use Rattle.plan_tables.specs.Unused.{AreLeast};

use crate::figures::{rest_of, size_of};
use crate::spots::{Spot, spots_of};
use crate::unused::unused_of;
use penalty_cost::kept_cost;
use problem_data::{NoMemory, ProblemData};
use route_cache::Route;
use routing_model::Weights;
use std::alloc::Global;

/// What is kept beside the lists of a plan: of each place, of each vehicle, and of each vehicle type.
#[derive(Drop)]
pub struct PlanTables {
    /// Where the client of each place stands.
    pub spots: Vec<Spot>,
    /// How many visits each vehicle has.
    pub sizes: Vec<u32>,
    /// What each used vehicle costs besides its fixed cost and its distance, cut at 2^61; 0 where it is unused.
    pub rests: Vec<i64>,
    /// What each vehicle costs.
    pub costs: Vec<u128>,
    /// The least unused vehicle of each type.
    pub unused: Vec<Option<u32>>,
}

/// How many visits each route has.
fn sizes_of(alloc: Global, routes: &[Route<'_>]) -> Result<Vec<u32>, NoMemory>
    ensures { IfOk result (λ sizes. sizes.items ≡ map size_in routes.now) }
{
    Ok(routes.iter().map(|route| size_of(route)).collect(alloc)?)
}

/// What each route costs besides its fixed cost and its distance.
fn rests_of(alloc: Global, routes: &[Route<'_>], weights: Weights) -> Result<Vec<i64>, NoMemory>
    requires { IsWeighed weights }
    ensures { IfOk result (λ rests. rests.items ≡ map (rest_in weights) routes.now) }
{
    Ok(
        routes
            .iter()
            .map(|route| rest_of(route, weights))
            .collect(alloc)?,
    )
}

/// What each route costs.
fn costs_of(alloc: Global, routes: &[Route<'_>], weights: Weights) -> Result<Vec<u128>, NoMemory>
    requires { IsWeighed weights }
    ensures { IfOk result (λ costs. costs.items ≡ map (cost_in weights) routes.now) }
{
    Ok(
        routes
            .iter()
            .map(|route| kept_cost(route, weights))
            .collect(alloc)?,
    )
}

impl PlanTables {
    /// The tables of some routes. Conditions: there is one route for each vehicle, with a list that a vehicle can have, and no
    /// weight exceeds 10^9. Refused only where memory runs out.
    pub fn new(
        alloc: Global,
        given: &ProblemData,
        routes: &[Route<'_>],
        weights: Weights,
    ) -> Result<PlanTables, NoMemory>
        requires one_route_each { length routes.now ≡ vehicle_count given.now }
        requires listed { All (IsListed given.now) (lists_of routes.now) }
        requires weights { IsWeighed weights }
        ensures { IfOk result (λ tables. HasPlanTables given.now weights routes.now tables) }
    {
        given.vehicles();
        let sizes = sizes_of(alloc, routes)?;
        let rests = rests_of(alloc, routes, weights)?;
        let costs = costs_of(alloc, routes, weights)?;
        let spots = spots_of(alloc, given.client_places().end as usize, routes)?;
        let unused = unused_of(alloc, given, sizes.as_slice())?;
        Ok(PlanTables {
            spots,
            sizes,
            rests,
            costs,
            unused,
        })
    }
}
