//! Lists of plans that are compared with one another.
ghost use Rattle.std.specs.Prelude.{◌≡◌, ◌+◌, ◌++◌, ◌<◌, ◌≤◌, [], ◌∷◌, filter, IfSome, IsTrue, length, OnErr, OnOk, remove};
ghost use Rattle.std.specs.List.{last_or};
ghost use Rattle.list_words.specs.Lists.{places_of};
ghost use Rattle.problem_data.specs.declared.problem.Problem.{Problem};
ghost use Rattle.routing_model.specs.Lawful.{is_lawful};
ghost use Rattle.genetic_model.specs.Fitness.{diversity, item_at, nearest};
ghost use Rattle.genetic_model.specs.Population.{is_duplicate};
ghost use Rattle.plan_differences.specs.Beside.{AreFlanks};
ghost use Rattle.compared_plans.specs.Compared.{AreCompared, items_of, plans_of};

use crate::comparing::compare_last;
use crate::duplicates::last_duplicate;
use crate::item::ComparedPlan;
use crate::removing::forget_plan;
use genetic_model::PopulationParams;
use plan_differences::{Flanks, flanks_of};
use problem_data::{NoMemory, ProblemData, Solution};
use sorted_numbers::{MOST_NUMBERS, SortedNumbers};
use std::alloc::Global;

/// Plans in the order in which they were added. Each keeps what stands beside its clients and, in ascending order, its numbers of broken
/// pairs with each other one.
#[derive(Drop)]
pub struct ComparedPlans {
    items: Vec<ComparedPlan>,
}

impl ComparedPlans {
    /// No plan yet. Takes no memory.
    pub fn new(alloc: Global) -> ComparedPlans
        ensures plans { plans_of result ≡ [] }
        ensures compared { (p : Problem) → AreCompared p result }
    {
        ComparedPlans {
            items: Vec::new(alloc),
        }
    }

    /// How many plans there are.
    pub fn len(&self) -> usize
        ensures { result ≡ length (plans_of self.now) }
    {
        self.items.len()
    }

    /// The plan at a place. Condition: it is below the number of plans.
    pub fn plan(&self, place: usize) -> &Solution
        requires { place < length (plans_of self.now) }
        ensures plan { result.now.routes ≡ item_at (plans_of self.now) place }
        ensures lawful { (p : Problem) → AreCompared p self.now → IsTrue (is_lawful p result.now.routes) }
    {
        &self.items[place].plan
    }

    /// What stands beside the clients of the plan at a place. Condition: it is below the number of plans.
    pub fn flanks(&self, place: usize) -> &[Flanks]
        requires { place < length (plans_of self.now) }
        ensures { (p : Problem) → AreCompared p self.now → AreFlanks p (item_at (plans_of self.now) place) result.now }
    {
        self.items[place].flanks.as_slice()
    }

    /// The numbers of broken pairs of the plan at a place with each other one, ascending. Condition: the place is below the number of plans.
    pub fn near(&self, place: usize) -> &[u32]
        requires { place < length (plans_of self.now) }
        ensures { (p : Problem) → AreCompared p self.now → result.now ≡ nearest p (plans_of self.now) place }
    {
        self.items[place].near.as_slice()
    }

    /// The sum of the plan's least numbers of broken pairs, as many as count as close. Condition: the place is below the number of plans.
    pub fn diversity(&self, params: PopulationParams, place: usize) -> u64
        requires { place < length (plans_of self.now) }
        ensures { (p : Problem) → AreCompared p self.now → result ≡ diversity p params (plans_of self.now) place }
    {
        self.items[place].near.least_sum(params.nb_close)
    }

    /// Adds a plan at the end. Conditions: it is lawful, what is kept is right of this problem, and there are at most as many plans as
    /// there is room for numbers. Refused only where memory runs out: then the plans stay, and the new one is dropped.
    pub fn append(
        &mut self,
        alloc: Global,
        given: &ProblemData,
        plan: Solution,
    ) -> Result<(), NoMemory>
        requires compared { AreCompared given.now self.old }
        requires lawful { IsTrue (is_lawful given.now plan.routes) }
        requires few { length (plans_of self.old) ≤ MOST_NUMBERS }
        ensures compared { AreCompared given.now self.new }
        ensures ok { OnOk result (plans_of self.new ≡ plans_of self.old ++ plan.routes ∷ []) }
        ensures err { OnErr result (items_of self.new ≡ items_of self.old) }
    {
        let flanks = flanks_of(alloc, given, &plan)?;
        let near = SortedNumbers::with_room(alloc)?;
        let last = self.items.len();
        self.items.push(ComparedPlan { plan, flanks, near })?;
        compare_last(given, self.items.as_mut_slice(), last);
        Ok(())
    }

    /// Takes out the plan at a place. Conditions: it is below the number of plans, and what is kept is right of this problem. Takes no memory.
    pub fn remove(&mut self, given: &ProblemData, place: usize)
        requires place { place < length (plans_of self.old) }
        requires compared { AreCompared given.now self.old }
        ensures compared { AreCompared given.now self.new }
        ensures plans { plans_of self.new ≡ remove (plans_of self.old) place }
    {
        let gone = self.items.remove(place);
        forget_plan(given, self.items.as_mut_slice(), place, &gone);
    }

    /// The last place whose plan equals an earlier one, if there is one.
    pub fn last_duplicate(&self) -> Option<usize>
        ensures last { result ≡ last_or None (filter (is_duplicate (plans_of self.now)) (places_of (plans_of self.now))) }
        ensures there { IfSome result (λ place. place < length (plans_of self.now)) }
    {
        last_duplicate(self.items.as_slice())
    }

    /// Takes out all plans.
    pub fn clear(&mut self)
        ensures plans { plans_of self.new ≡ [] }
        ensures compared { (p : Problem) → AreCompared p self.new }
    {
        self.items.clear();
    }
}
