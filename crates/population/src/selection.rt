//! The selection of two parents.
ghost use Rattle.std.specs.Prelude.{◌≡◌, ◌<◌, ◌≤◌, IfOk, OnErr, length};
ghost use Rattle.genetic_model.specs.Fitness.{item_at};
ghost use Rattle.genetic_model.specs.Population.{items_of};
ghost use Rattle.genetic_model.specs.Selection.{is_diverse, scores};
ghost use Rattle.penalty_cost.specs.Plans.{IsWeighed};
ghost use Rattle.plan_differences.specs.Beside.{AreFlanks};
ghost use Rattle.population.specs.Populations.{AreSelected, IsKeptIn, population_of};
ghost use Rattle.population.specs.inside.Seconds.{IsSecondParent};

use crate::plans::Population;
use crate::score::{Score, push_scores};
use crate::tournaments::tournament;
use plan_differences::{Flanks, broken_between};
use problem_data::{NoMemory, ProblemData, Reads, Steps};
use routing_model::Weights;
use std::alloc::Global;
use vrp_num::Xor128;

/// How many tournaments more than one are held for a second parent at most.
const MORE_TOURNAMENTS: u32 = 9;

impl Population {
    /// The scores of all plans, feasible ones first.
    fn scores(
        &self,
        alloc: Global,
        given: &ProblemData,
        weights: Weights,
    ) -> Result<Vec<Score>, NoMemory>
        requires kept { IsKeptIn given.now self.now }
        requires weights { IsWeighed weights }
        ensures scores { IfOk result (λ r. r.items ≡ scores given.now weights (population_of self.now)) }
        ensures as_many { IfOk result (λ r. length r.items ≡ length (items_of (population_of self.now))) }
    {
        let feasible = self.feasible.fitnesses(self.params, weights);
        let infeasible = self.infeasible.fitnesses(self.params, weights);
        let mut scores = Vec::new(alloc);
        push_scores(&mut scores, feasible.as_slice())?;
        push_scores(&mut scores, infeasible.as_slice())?;
        Ok(scores)
    }

    /// What stands beside the clients of the plan of a number.
    fn flanks(&self, given: &ProblemData, index: u32) -> &[Flanks]
        requires kept { IsKeptIn given.now self.now }
        requires index { index < length (items_of (population_of self.now)) }
        ensures { AreFlanks given.now (item_at (items_of (population_of self.now)) index) result.now }
    {
        let (list, place) = self.placed(index);
        list.flanks(place)
    }

    /// Whether two plans differ in as many pairs of a client and a side, per thousand of all, as the parameters allow.
    fn is_diverse(&self, given: &ProblemData, first: u32, second: u32) -> bool
        requires kept { IsKeptIn given.now self.now }
        requires first { first < length (items_of (population_of self.now)) }
        requires second { second < length (items_of (population_of self.now)) }
        ensures { result ≡ is_diverse given.now (population_of self.now) first second }
    {
        given.validity();
        let broken = broken_between(given, self.flanks(given, first), self.flanks(given, second));
        let clients = given.client_places();
        let share = broken * 1000 / (2 * (clients.end - clients.start));
        self.params.lb_diversity <= share && share <= self.params.ub_diversity
    }

    /// The second parent, where the first is chosen: that of a tournament, and of so many more as long as it isn't diverse enough.
    fn second_parent(
        &self,
        given: &ProblemData,
        scores: &[Score],
        first: u32,
        more: u32,
        words: &mut Xor128,
    ) -> u32
        requires kept { IsKeptIn given.now self.now }
        requires first { first < length (items_of (population_of self.now)) }
        requires as_many { length scores.now ≡ length (items_of (population_of self.now)) }
        ensures second { IsSecondParent given.now (population_of self.now) scores.now first more words.old result words.new }
        ensures there { result < length scores.now }
    {
        self.len();
        for _held in 0..more {
            let second = tournament(scores, words);
            if self.is_diverse(given, first, second) {
                return second;
            }
        }
        tournament(scores, words)
    }

    /// Two parents, by their numbers among all plans, feasible ones first. Each is the winner of a tournament: two plans are drawn, and the
    /// one of less fitness over the square of its list's size wins, the first drawn on a tie. For the second parent at most ten tournaments
    /// are held, until the winner differs from the first parent in as many pairs of a client and a side as the parameters allow.
    ///
    /// Conditions: there is a plan, what the population keeps is right of this problem, and no weight exceeds 10^9. Refused only where
    /// memory runs out: then no word was drawn. Reads no leg.
    pub fn select(
        &self,
        alloc: Global,
        given: &ProblemData,
        weights: Weights,
        words: &mut Xor128,
        reads: &mut Steps<Reads>,
    ) -> Result<(u32, u32), NoMemory>
        requires kept { IsKeptIn given.now self.now }
        requires some { 1 ≤ length (items_of (population_of self.now)) }
        requires weights { IsWeighed weights }
        ensures ok { IfOk result (λ r. AreSelected given.now weights (population_of self.now) words.old r words.new) }
        ensures there { IfOk result (λ r. (r.0 < length (items_of (population_of self.now))) × (r.1 < length (items_of (population_of self.now)))) }
        ensures err { OnErr result (words.new ≡ words.old) }
        ensures reads { reads.new ≡ reads.old }
    {
        self.len();
        let scores = self.scores(alloc, given, weights)?;
        let all = scores.as_slice();
        let first = tournament(all, words);
        let second = self.second_parent(given, all, first, MORE_TOURNAMENTS, words);
        Ok((first, second))
    }
}
