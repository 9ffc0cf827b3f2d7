//! What plans cost and exceed.
ghost use Rattle.std.specs.Prelude.{◌≡◌, ◌+◌, ◌*◌, ◌<◌, ◌≤◌, List, length, pos, sum_by};
ghost use Rattle.problem_data.specs.declared.visit.Visit.{Visit};
ghost use Rattle.problem_data.specs.Limits.{most_vehicles};
ghost use Rattle.problem_data.specs.Places.{vehicle_count};
ghost use Rattle.problem_data.specs.Reads.{RoseAtMost};
ghost use Rattle.routing_model.specs.Cost.{route_cost, solution_cost};
ghost use Rattle.routing_model.specs.Listed.{IsListed, type_of_vehicle};
ghost use Rattle.penalty_cost.specs.Plans.{IsDrivablePlan, IsWeighed};
ghost use Rattle.penalty_cost.specs.inside.Totals.{most_cost, vehicles_cost};

use crate::prizes::missed_prizes;
use crate::vehicle_cost::vehicle_cost;
use problem_data::{ProblemData, Reads, Solution, Steps, Visit, VisitList};
use routing_model::Weights;

/// What a vehicle costs with this list (PyVRP's penalised cost): its fixed cost, its distance and its duration at their unit costs,
/// and its weighted excess load, time warp with excess duration, and excess distance; nothing where the list has no client. It
/// drives from the start of least time warp and then of least duration.
///
/// Conditions: the vehicle is in range, the list names existing places, is tidy and has no more visits than a vehicle can have, and
/// no weight exceeds 10^9. It reads at most one leg more than there are visits.
pub fn route_cost(
    given: &ProblemData,
    vehicle: u32,
    visits: &[Visit],
    weights: Weights,
    reads: &mut Steps<Reads>,
) -> i128
    requires vehicle { vehicle < vehicle_count given.now }
    requires listed { IsListed given.now visits.now }
    requires weights { IsWeighed weights }
    ensures cost { result ≡ pos (route_cost given.now weights (type_of_vehicle given.now vehicle) visits.now) }
    ensures reads { RoseAtMost (length visits.now + 1) reads.old reads.new }
{
    vehicle_cost(given, vehicle, visits, weights, reads) as i128
}

/// What the vehicles of a plan cost together.
fn vehicles_cost(
    given: &ProblemData,
    routes: &[VisitList],
    weights: Weights,
    reads: &mut Steps<Reads>,
) -> u128
    requires plan { IsDrivablePlan given.now routes.now }
    requires weights { IsWeighed weights }
    ensures value { result ≡ vehicles_cost given.now weights routes.now }
    ensures short { result ≤ most_vehicles * most_cost }
    ensures reads { RoseAtMost (sum_by (λ (visits : List Visit). length visits + 1) routes.now) reads.old reads.new }
{
    given.vehicles();
    let mut cost = 0;
    for (vehicle, visits) in routes.iter().enumerate() {
        cost += vehicle_cost(given, vehicle as u32, visits.items(), weights, reads);
    }
    cost
}

/// What a plan costs, given by its lists: what its vehicles cost, and the prizes of the clients that it doesn't visit.
///
/// Conditions: there is one list for each vehicle, each names existing places, is tidy and has no more visits than a vehicle can
/// have, no client stands twice, and no weight exceeds 10^9. For each vehicle it reads at most one leg more than there are visits.
pub fn routes_cost(
    given: &ProblemData,
    routes: &[VisitList],
    weights: Weights,
    reads: &mut Steps<Reads>,
) -> i128
    requires plan { IsDrivablePlan given.now routes.now }
    requires weights { IsWeighed weights }
    ensures cost { result ≡ pos (solution_cost given.now weights routes.now) }
    ensures reads { RoseAtMost (sum_by (λ (visits : List Visit). length visits + 1) routes.now) reads.old reads.new }
{
    let cost = vehicles_cost(given, routes, weights, reads);
    (cost + u128::from(missed_prizes(given, routes))) as i128
}

/// What a plan costs. See `routes_cost`, and its conditions.
pub fn solution_cost(
    given: &ProblemData,
    solution: &Solution,
    weights: Weights,
    reads: &mut Steps<Reads>,
) -> i128
    requires plan { IsDrivablePlan given.now solution.now.routes }
    requires weights { IsWeighed weights }
    ensures cost { result ≡ pos (solution_cost given.now weights solution.now.routes) }
    ensures reads { RoseAtMost (sum_by (λ (visits : List Visit). length visits + 1) solution.now.routes) reads.old reads.new }
{
    routes_cost(given, solution.routes.items(), weights, reads)
}
