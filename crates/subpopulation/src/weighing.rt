//! How fit the plans of a list are.
ghost use Rattle.std.specs.Prelude.{◌≡◌, ◌≤◌, length, map};
ghost use Rattle.list_words.specs.Lists.{places_of};
ghost use Rattle.problem_data.specs.declared.problem.Problem.{Problem};
ghost use Rattle.routing_model.specs.Cost.{solution_cost};
ghost use Rattle.genetic_model.specs.Fitness.{diversity, fitnesses};
ghost use Rattle.penalty_cost.specs.Plans.{IsWeighed};
ghost use Rattle.subpopulation.specs.Kept.{CanBeWeighed, IsKept, plans_of};

use crate::list::Subpopulation;
use arrayvec::ArrayVec;
use genetic_model::PopulationParams;
use plan_fitness::{MOST_ITEMS, fitnesses};
use routing_model::Weights;

impl Subpopulation {
    /// What each plan costs by these weights.
    fn costs_by(&self, weights: Weights) -> ArrayVec<u128, MOST_ITEMS>
        requires costs { CanBeWeighed self.now }
        requires weights { IsWeighed weights }
        requires few { length (plans_of self.now) ≤ MOST_ITEMS }
        ensures costs { (p : Problem) → IsKept p self.now → result.items ≡ map (solution_cost p weights) (plans_of self.now) }
        ensures as_many { length result.items ≡ length (plans_of self.now) }
    {
        let mut costs = ArrayVec::new();
        for cost in self.costs.as_slice() {
            costs.push(cost.weighed(weights));
        }
        costs
    }

    /// How diverse each plan is.
    fn diversities(&self, params: PopulationParams) -> ArrayVec<u64, MOST_ITEMS>
        requires few { length (plans_of self.now) ≤ MOST_ITEMS }
        ensures diversities { (p : Problem) → IsKept p self.now → result.items ≡ map (diversity p params (plans_of self.now)) (places_of (plans_of self.now)) }
        ensures as_many { length result.items ≡ length (plans_of self.now) }
    {
        let mut diversities = ArrayVec::new();
        for place in 0..self.plans.len() {
            diversities.push(self.plans.diversity(params, place));
        }
        diversities
    }

    /// The fitness of each plan, by what it costs by these weights and how diverse it is: a lower one is better.
    ///
    /// Conditions: what is kept can be weighed, as it can where it is right of a problem, no weight exceeds 10^9, and there are at most
    /// `MOST_ITEMS` plans. Takes no memory, and reads no leg.
    pub fn fitnesses(&self, params: PopulationParams, weights: Weights) -> ArrayVec<u64, MOST_ITEMS>
        requires costs { CanBeWeighed self.now }
        requires weights { IsWeighed weights }
        requires few { length (plans_of self.now) ≤ MOST_ITEMS }
        ensures { (p : Problem) → IsKept p self.now → result.items ≡ fitnesses p params weights (plans_of self.now) }
    {
        let costs = self.costs_by(weights);
        let diversities = self.diversities(params);
        fitnesses(params, costs.as_slice(), diversities.as_slice())
    }
}
