//! How fit the plans of a list are.
ghost use Rattle.std.specs.Prelude.{◌≡◌, ◌<◌, ◌≤◌, All, List, length, map};
ghost use Rattle.list_words.specs.Lists.{last_greatest, places_of};
ghost use Rattle.problem_data.specs.declared.problem.Problem.{Problem};
ghost use Rattle.routing_model.specs.Cost.{solution_cost};
ghost use Rattle.routing_model.specs.Routes.{Routes};
ghost use Rattle.genetic_model.specs.Fitness.{diversity, fitness_of_ranks, fitnesses};
ghost use Rattle.plan_fitness.specs.inside.Ranked.{fitnesses_by, greatest, shortfall};

use crate::ranking::{MOST_ITEMS, ranks};
use arrayvec::ArrayVec;
use genetic_model::PopulationParams;
use routing_model::Weights;

/// The fitness of one of `size` items, by its ranks.
fn fitness_of_ranks(
    params: PopulationParams,
    size: usize,
    cost_rank: u32,
    diversity_rank: u32,
) -> u64
    requires size { size ≤ MOST_ITEMS }
    requires cost_rank { cost_rank ≤ size }
    requires diversity_rank { diversity_rank ≤ size }
    ensures { result ≡ fitness_of_ranks params size cost_rank diversity_rank }
{
    let size = size as u64;
    let others = size - size.min(u64::from(params.nb_elite));
    u64::from(cost_rank) * size + others * u64::from(diversity_rank)
}

/// How far each number is below the greatest one that there is.
fn shortfalls(numbers: &[u64]) -> ArrayVec<u128, MOST_ITEMS>
    requires { length numbers.now ≤ MOST_ITEMS }
    ensures values { result.items ≡ map shortfall numbers.now }
    ensures range { All (λ n. n ≤ greatest) numbers.now }
{
    let mut shortfalls = ArrayVec::new();
    for number in numbers {
        shortfalls.push(u128::from(u64::MAX - number));
    }
    shortfalls
}

/// The fitness of each item by the items' costs and diversities.
fn fitnesses_by(
    params: PopulationParams,
    costs: &[u128],
    diversities: &[u64],
) -> ArrayVec<u64, MOST_ITEMS>
    requires few { length costs.now ≤ MOST_ITEMS }
    requires diversities { length diversities.now ≡ length costs.now }
    ensures { result.items ≡ fitnesses_by params costs.now diversities.now }
{
    let by_cost = ranks(costs);
    let by_diversity = ranks(shortfalls(diversities).as_slice());
    let size = costs.len();
    let mut fitnesses = ArrayVec::new();
    for place in 0..size {
        fitnesses.push(fitness_of_ranks(params, size, by_cost[place], by_diversity[place]));
    }
    fitnesses
}

/// The fitness of each plan of a list, by what the plans cost and how diverse they are: a lower one is better. It comes from the list's
/// size and two ranks, that of cost and that of diversity, which counts for less among the best by cost. On equal costs or diversities
/// the earlier plan comes first.
///
/// Conditions: there are a cost and a diversity of each plan, and at most `MOST_ITEMS`. Takes no memory.
pub fn fitnesses(
    params: PopulationParams,
    costs: &[u128],
    diversities: &[u64],
) -> ArrayVec<u64, MOST_ITEMS>
    requires few { length costs.now ≤ MOST_ITEMS }
    requires diversities { length diversities.now ≡ length costs.now }
    ensures plans { (p : Problem) (w : Weights) (plans : List Routes) → costs.now ≡ map (solution_cost p w) plans → diversities.now ≡ map (diversity p params plans) (places_of plans) →
        result.items ≡ fitnesses p params w plans }
{
    fitnesses_by(params, costs, diversities)
}

/// The place of the greatest fitness, the last one on a tie. Condition: there is an item.
pub fn worst(fitnesses: &[u64]) -> usize
    requires { 0 < length fitnesses.now }
    ensures place { result ≡ last_greatest fitnesses.now }
    ensures there { result < length fitnesses.now }
{
    let mut worst = 0;
    for (place, fitness) in fitnesses.iter().enumerate() {
        if fitnesses[worst] <= *fitness {
            worst = place;
        }
    }
    worst
}
