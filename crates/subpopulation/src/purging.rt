//! A list that is too long loses its duplicates, and then its least fit plans.
ghost use Rattle.std.specs.Prelude.{◌≡◌, ◌+◌, ◌-◌, ◌≤◌, length, nat_lt, if◌then◌else◌};
ghost use Rattle.list_words.specs.Lists.{times};
ghost use Rattle.genetic_model.specs.Population.{survivors, without_last_duplicate, without_worst};
ghost use Rattle.genetic_model.specs.Ranges.{IsPopulationInRange};
ghost use Rattle.penalty_cost.specs.Plans.{IsWeighed};
ghost use Rattle.subpopulation.specs.Kept.{IsKept, plans_of};

use crate::list::Subpopulation;
use genetic_model::PopulationParams;
use plan_fitness::{MOST_ITEMS, worst};
use problem_data::ProblemData;
use routing_model::Weights;

impl Subpopulation {
    /// Takes out the last plan that equals an earlier one, as long as there is one and the list is longer than its least size.
    fn drop_duplicates(&mut self, given: &ProblemData, least: usize)
        requires { IsKept given.now self.old }
        ensures kept { IsKept given.now self.new }
        ensures plans { plans_of self.new ≡ times (length (plans_of self.old) - least) without_last_duplicate (plans_of self.old) }
        ensures few { length (plans_of self.new) ≤ length (plans_of self.old) }
    {
        for _count in least..self.len() {
            let Some(place) = self.plans.last_duplicate() else {
                return;
            };
            self.remove(given, place);
        }
    }

    /// Takes out the least fit plan, the last one on a tie, as long as the list is longer than its least size.
    fn drop_worst(
        &mut self,
        given: &ProblemData,
        params: PopulationParams,
        weights: Weights,
        least: usize,
    )
        requires kept { IsKept given.now self.old }
        requires weights { IsWeighed weights }
        requires few { length (plans_of self.old) ≤ MOST_ITEMS }
        ensures kept { IsKept given.now self.new }
        ensures plans { plans_of self.new ≡ times (length (plans_of self.old) - least) (without_worst given.now params weights) (plans_of self.old) }
    {
        for _count in least..self.len() {
            let fitnesses = self.fitnesses(params, weights);
            self.remove(given, worst(fitnesses.as_slice()));
        }
    }

    /// Brings the list down to its least size.
    fn purge(&mut self, given: &ProblemData, params: PopulationParams, weights: Weights)
        requires kept { IsKept given.now self.old }
        requires weights { IsWeighed weights }
        requires few { length (plans_of self.old) ≤ MOST_ITEMS }
        ensures kept { IsKept given.now self.new }
        ensures plans { plans_of self.new ≡ survivors given.now params weights (plans_of self.old) }
    {
        let least = params.min_pop_size as usize;
        self.drop_duplicates(given, least);
        self.drop_worst(given, params, weights, least);
    }

    /// Brings the list down to its least size, where it is longer than that and a generation together.
    pub(crate) fn purge_where_long(
        &mut self,
        given: &ProblemData,
        params: PopulationParams,
        weights: Weights,
    )
        requires kept { IsKept given.now self.old }
        requires params { IsPopulationInRange params }
        requires weights { IsWeighed weights }
        requires few { length (plans_of self.old) ≤ MOST_ITEMS }
        ensures kept { IsKept given.now self.new }
        ensures plans { plans_of self.new ≡ (if nat_lt (params.min_pop_size + params.generation_size) (length (plans_of self.old)) then survivors given.now params weights (plans_of self.old) else plans_of self.old) }
        ensures few { length (plans_of self.new) ≤ params.min_pop_size + params.generation_size }
    {
        let most = (params.min_pop_size + params.generation_size) as usize;
        if self.len() > most {
            self.purge(given, params, weights);
        }
    }
}
