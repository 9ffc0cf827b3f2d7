//! A list of plans with what they cost.
ghost use Rattle.std.specs.Prelude.{◌≡◌, ◌+◌, ◌<◌, ◌≤◌, [], ◌∷◌, ◌++◌, IsTrue, length, OnErr, OnOk, remove};
ghost use Rattle.problem_data.specs.declared.problem.Problem.{Problem};
ghost use Rattle.routing_model.specs.Lawful.{is_lawful};
ghost use Rattle.genetic_model.specs.Fitness.{item_at, nearest};
ghost use Rattle.genetic_model.specs.Population.{appended};
ghost use Rattle.genetic_model.specs.Ranges.{IsPopulationInRange};
ghost use Rattle.penalty_cost.specs.Plans.{IsWeighed};
ghost use Rattle.plan_differences.specs.Beside.{AreFlanks};
ghost use Rattle.plan_fitness.specs.PlanCosts.{IsPlanCost};
ghost use Rattle.subpopulation.specs.Kept.{IsKept, IsUnchanged, plans_of};

use compared_plans::ComparedPlans;
use genetic_model::PopulationParams;
use plan_differences::Flanks;
use plan_fitness::PlanCost;
use problem_data::{NoMemory, ProblemData, Solution};
use routing_model::Weights;
use std::alloc::Global;

/// Plans in the order in which they were added, with what they cost, what stands beside their clients, and in how many pairs of a client
/// and a side they differ from one another.
#[derive(Drop)]
pub struct Subpopulation {
    pub(crate) plans: ComparedPlans,
    pub(crate) costs: Vec<PlanCost>,
}

impl Subpopulation {
    /// No plan yet. Takes no memory.
    pub fn new(alloc: Global) -> Subpopulation
        ensures plans { plans_of result ≡ [] }
        ensures kept { (p : Problem) → IsKept p result }
    {
        Subpopulation {
            plans: ComparedPlans::new(alloc),
            costs: Vec::new(alloc),
        }
    }

    /// How many plans there are.
    pub fn len(&self) -> usize
        ensures { result ≡ length (plans_of self.now) }
    {
        self.plans.len()
    }

    /// The plan at a place. Condition: it is below the number of plans.
    pub fn plan(&self, place: usize) -> &Solution
        requires { place < length (plans_of self.now) }
        ensures plan { result.now.routes ≡ item_at (plans_of self.now) place }
        ensures lawful { (p : Problem) → IsKept p self.now → IsTrue (is_lawful p result.now.routes) }
    {
        self.plans.plan(place)
    }

    /// What stands beside the clients of the plan at a place. Condition: it is below the number of plans.
    pub fn flanks(&self, place: usize) -> &[Flanks]
        requires { place < length (plans_of self.now) }
        ensures { (p : Problem) → IsKept p self.now → AreFlanks p (item_at (plans_of self.now) place) result.now }
    {
        self.plans.flanks(place)
    }

    /// The numbers of broken pairs of the plan at a place with each other one of the list, ascending. Condition: the place is below the
    /// number of plans.
    pub fn near(&self, place: usize) -> &[u32]
        requires { place < length (plans_of self.now) }
        ensures { (p : Problem) → IsKept p self.now → result.now ≡ nearest p (plans_of self.now) place }
    {
        self.plans.near(place)
    }

    /// Takes out the plan at a place. Conditions: it is below the number of plans, and what is kept is right of this problem.
    pub(crate) fn remove(&mut self, given: &ProblemData, place: usize)
        requires place { place < length (plans_of self.old) }
        requires kept { IsKept given.now self.old }
        ensures kept { IsKept given.now self.new }
        ensures plans { plans_of self.new ≡ remove (plans_of self.old) place }
    {
        self.plans.remove(given, place);
        self.costs.remove(place);
    }

    /// Adds a plan at the end, and purges the list where it is then longer than its least size and a generation together: first the last
    /// plan that equals an earlier one goes, as long as there is one, then the least fit one, each time only while the list is longer than
    /// its least size.
    ///
    /// Conditions: the plan is lawful and costs what is said, what is kept is right of this problem, the parameters are in their ranges,
    /// no weight exceeds 10^9, and the list isn't too long before. Refused only where memory runs out: then the list stays, and the plan is
    /// dropped. Reads no leg.
    pub fn append(
        &mut self,
        alloc: Global,
        given: &ProblemData,
        params: PopulationParams,
        weights: Weights,
        plan: Solution,
        cost: PlanCost,
    ) -> Result<(), NoMemory>
        requires kept { IsKept given.now self.old }
        requires params { IsPopulationInRange params }
        requires weights { IsWeighed weights }
        requires lawful { IsTrue (is_lawful given.now plan.routes) }
        requires cost { IsPlanCost given.now plan.routes cost }
        requires few { length (plans_of self.old) ≤ params.min_pop_size + params.generation_size }
        ensures kept { IsKept given.now self.new }
        ensures few { length (plans_of self.new) ≤ params.min_pop_size + params.generation_size }
        ensures ok { OnOk result (plans_of self.new ≡ appended given.now params weights plan.routes (plans_of self.old)) }
        ensures err { OnErr result (IsUnchanged self.old self.new) }
    {
        self.push(alloc, given, plan, cost)?;
        self.purge_where_long(given, params, weights);
        Ok(())
    }

    /// Takes out all plans.
    pub fn clear(&mut self)
        ensures plans { plans_of self.new ≡ [] }
        ensures kept { (p : Problem) → IsKept p self.new }
    {
        self.plans.clear();
        self.costs.clear();
    }

    /// Adds a plan at the end. Refused only where memory runs out: then the list stays, and the plan is dropped.
    fn push(
        &mut self,
        alloc: Global,
        given: &ProblemData,
        plan: Solution,
        cost: PlanCost,
    ) -> Result<(), NoMemory>
        requires kept { IsKept given.now self.old }
        requires lawful { IsTrue (is_lawful given.now plan.routes) }
        requires cost { IsPlanCost given.now plan.routes cost }
        requires few { length (plans_of self.old) ≤ 400 }
        ensures kept { IsKept given.now self.new }
        ensures ok { OnOk result (plans_of self.new ≡ plans_of self.old ++ plan.routes ∷ []) }
        ensures err { OnErr result (IsUnchanged self.old self.new) }
    {
        self.costs.reserve(1)?;
        self.plans.append(alloc, given, plan)?;
        self.costs.push(cost).unwrap();
        Ok(())
    }
}
