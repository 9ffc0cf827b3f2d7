//! A population: what it holds, and how plans are added.
ghost use Rattle.std.specs.Prelude.{◌≡◌, ℕ, ◌+◌, ◌*◌, ◌-◌, ◌<◌, ◌≤◌, false, IfOk, IfSome, IsTrue, List, OnErr, OnOk, length, option_map, pos, sum_by, true};
ghost use Rattle.problem_data.specs.declared.problem.Problem.{Problem};
ghost use Rattle.problem_data.specs.declared.visit.Visit.{Visit};
ghost use Rattle.problem_data.specs.Reads.{RoseAtMost};
ghost use Rattle.routing_model.specs.Best.{Best, improves};
ghost use Rattle.routing_model.specs.Feasible.{is_feasible};
ghost use Rattle.routing_model.specs.Lawful.{is_lawful};
ghost use Rattle.genetic_model.specs.Fitness.{item_at, nearest};
ghost use Rattle.genetic_model.specs.Population.{added, added_to, cleared, empty_population, items_of, nearest_numbers};
ghost use Rattle.genetic_model.specs.Ranges.{IsPopulationInRange};
ghost use Rattle.penalty_cost.specs.Plans.{IsWeighed};
ghost use Rattle.plan_fitness.specs.PlanCosts.{IsPlanCost};
ghost use Rattle.subpopulation.specs.Kept.{IsKept, plans_of};

use crate::best_plan::{BestPlan, better_than, replace};
use genetic_model::PopulationParams;
use plan_fitness::{PlanCost, plan_cost};
use problem_data::{NoMemory, ProblemData, Reads, Solution, Steps};
use routing_model::Weights;
use std::alloc::Global;
use subpopulation::Subpopulation;

/// Feasible plans and infeasible plans, each in the order in which they were added, and the best feasible plan of all that were added.
#[derive(Drop)]
pub struct Population {
    pub(crate) params: PopulationParams,
    pub(crate) feasible: Subpopulation,
    pub(crate) infeasible: Subpopulation,
    pub(crate) best: Option<BestPlan>,
    ghost params_in_range: { IsPopulationInRange params },
    ghost few_feasible: { length (plans_of feasible) ≤ params.min_pop_size + params.generation_size },
    ghost few_infeasible: { length (plans_of infeasible) ≤ params.min_pop_size + params.generation_size },
}

impl Population {
    ghost use Rattle.population.specs.Populations.{IsKeptIn, IsUnchanged, population_of};

    /// An empty population, which has no best plan.
    ///
    /// Condition: the parameters are within their ranges: `min_pop_size`, `generation_size` and `nb_close` from 1 to 200, `nb_elite` at
    /// most 200, `lb_diversity` and `ub_diversity` at most 1000 (per thousand). Takes no memory.
    pub fn new(alloc: Global, params: PopulationParams) -> Population
        requires { IsPopulationInRange params }
        ensures population { population_of result ≡ empty_population params }
        ensures kept { (p : Problem) → IsKeptIn p result }
    {
        Population {
            params,
            feasible: Subpopulation::new(alloc),
            infeasible: Subpopulation::new(alloc),
            best: None,
        }
    }

    /// How many plans it holds.
    pub fn len(&self) -> u32
        ensures count { result ≡ length (items_of (population_of self.now)) }
        ensures few { result ≤ 800 }
    {
        (self.feasible.len() + self.infeasible.len()) as u32
    }

    /// The list in which the plan of a number is, feasible ones first, and its place there.
    pub(crate) fn placed(&self, index: u32) -> (&Subpopulation, usize)
        requires { index < length (items_of (population_of self.now)) }
        ensures there { result.1 < length (plans_of result.0.now) }
        ensures plan { item_at (items_of (population_of self.now)) index ≡ item_at (plans_of result.0.now) result.1 }
        ensures near { (p : Problem) → nearest_numbers p (population_of self.now) index ≡ nearest p (plans_of result.0.now) result.1 }
        ensures kept { (p : Problem) → IsKeptIn p self.now → IsKept p result.0.now }
    {
        let index = index as usize;
        let feasible = self.feasible.len();
        if index < feasible {
            (&self.feasible, index)
        } else {
            (&self.infeasible, index - feasible)
        }
    }

    /// The plan of a number, feasible ones first. Condition: the number is below `len`.
    pub fn item(&self, index: u32) -> &Solution
        requires { index < length (items_of (population_of self.now)) }
        ensures plan { result.now.routes ≡ item_at (items_of (population_of self.now)) index }
        ensures lawful { (p : Problem) → IsKeptIn p self.now → IsTrue (is_lawful p result.now.routes) }
    {
        let (list, place) = self.placed(index);
        list.plan(place)
    }

    /// In how many pairs of a client and a side the plan of a number differs from each other one of its own list, ascending. Condition: the
    /// number is below `len`. Takes no memory.
    pub fn nearest(&self, index: u32) -> &[u32]
        requires { index < length (items_of (population_of self.now)) }
        ensures { (p : Problem) → IsKeptIn p self.now → result.now ≡ nearest_numbers p (population_of self.now) index }
    {
        let (list, place) = self.placed(index);
        list.near(place)
    }

    /// The best feasible plan of all that were added, the first of equal ones; none where none was.
    pub fn best(&self) -> Option<&Solution>
        ensures { option_map (λ plan. plan.now.routes) result ≡ option_map (λ (best : Best). best.routes) (population_of self.now).best }
    {
        match &self.best {
            Some(best) => Some(best.plan()),
            None => None,
        }
    }

    /// What the best plan costs; none where there is none.
    pub fn best_cost(&self) -> Option<i128>
        ensures { result ≡ option_map (λ (best : Best). pos best.cost) (population_of self.now).best }
    {
        match &self.best {
            Some(best) => Some(best.cost()),
            None => None,
        }
    }

    /// Adds a feasible plan, and makes it the best where it costs less.
    fn add_feasible(
        &mut self,
        alloc: Global,
        given: &ProblemData,
        plan: Solution,
        cost: PlanCost,
        weights: Weights,
    ) -> Result<bool, NoMemory>
        requires kept { IsKeptIn given.now self.old }
        requires lawful { IsTrue (is_lawful given.now plan.routes) }
        requires cost { IsPlanCost given.now plan.routes cost }
        requires feasible { IsTrue (is_feasible given.now plan.routes) }
        requires weights { IsWeighed weights }
        ensures kept { IsKeptIn given.now self.new }
        ensures ok { OnOk result (population_of self.new ≡ added_to given.now weights plan.routes true (population_of self.old)) }
        ensures best { IfOk result (λ improved. improved ≡ improves given.now weights plan.routes (population_of self.old).best) }
        ensures err { OnErr result (IsUnchanged self.old self.new) }
    {
        let better = better_than(alloc, &self.best, &plan, cost.unweighed())?;
        self.feasible
            .append(alloc, given, self.params, weights, plan, cost)?;
        Ok(replace(&mut self.best, better))
    }

    /// Adds a plan that isn't feasible.
    fn add_infeasible(
        &mut self,
        alloc: Global,
        given: &ProblemData,
        plan: Solution,
        cost: PlanCost,
        weights: Weights,
    ) -> Result<bool, NoMemory>
        requires kept { IsKeptIn given.now self.old }
        requires lawful { IsTrue (is_lawful given.now plan.routes) }
        requires cost { IsPlanCost given.now plan.routes cost }
        requires weights { IsWeighed weights }
        ensures kept { IsKeptIn given.now self.new }
        ensures ok { OnOk result (population_of self.new ≡ added_to given.now weights plan.routes false (population_of self.old)) }
        ensures best { IfOk result (λ improved. improved ≡ false) }
        ensures err { OnErr result (IsUnchanged self.old self.new) }
    {
        self.infeasible
            .append(alloc, given, self.params, weights, plan, cost)?;
        Ok(false)
    }

    /// Adds a plan to the feasible ones or to the others, and purges that list where it is then longer than `min_pop_size` and
    /// `generation_size` together: down to `min_pop_size`, plans that equal earlier ones go first, and then the least fit ones by these
    /// weights. A feasible plan becomes the best where it costs less than the best, or there is none. Answers whether the best changed.
    ///
    /// Conditions: the plan is lawful, what the population keeps is right of this problem, and no weight exceeds 10^9. Refused only where
    /// memory runs out: then the population is unchanged, and the plan is dropped. For each vehicle it reads at most two legs more than
    /// twice its visits.
    pub fn add(
        &mut self,
        alloc: Global,
        given: &ProblemData,
        solution: Solution,
        weights: Weights,
        reads: &mut Steps<Reads>,
    ) -> Result<bool, NoMemory>
        requires kept { IsKeptIn given.now self.old }
        requires lawful { IsTrue (is_lawful given.now solution.routes) }
        requires weights { IsWeighed weights }
        ensures kept { IsKeptIn given.now self.new }
        ensures ok { OnOk result (population_of self.new ≡ added given.now weights solution.routes (population_of self.old)) }
        ensures best { IfOk result (λ improved. improved ≡ improves given.now weights solution.routes (population_of self.old).best) }
        ensures err { OnErr result (IsUnchanged self.old self.new) }
        ensures reads { RoseAtMost (2 * sum_by (λ (visits : List Visit). length visits + 1) solution.routes) reads.old reads.new }
    {
        given.validity();
        let cost = plan_cost(given, &solution, reads);
        if cost.is_free_of_excess() {
            self.add_feasible(alloc, given, solution, cost, weights)
        } else {
            self.add_infeasible(alloc, given, solution, cost, weights)
        }
    }

    /// Drops all plans but the best.
    pub fn clear(&mut self)
        ensures population { population_of self.new ≡ cleared (population_of self.old) }
        ensures kept { (p : Problem) → IsKeptIn p self.new }
    {
        self.feasible.clear();
        self.infeasible.clear();
    }
}
