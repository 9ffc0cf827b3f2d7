//! A run of the genetic search, made of the public calls alone.
ghost use Rattle.std.specs.Prelude.{◌≡◌, ◌≤◌, IfOk, IsTrue, OnOk, length, map};
ghost use Rattle.penalty_cost.specs.Plans.{IsWeighed};
ghost use Rattle.routing_model.specs.Lawful.{is_lawful};
ghost use Rattle.search_model.specs.Kinds.{all_kinds};
ghost use Rattle.genetic_model.specs.Population.{items_of};
ghost use Rattle.genetic_model.specs.Ranges.{IsInRange};
ghost use Rattle.population.specs.Populations.{population_of};
ghost use Rattle.recording_operators.specs.OwnRuns.{IsOwnRun};

use genetic_model::Params;
use granular::{Neighbours, Proximity, neighbours};
use local_search::descend;
use move_core::{Kit, Operator, Search};
use penalties::Penalties;
use penalty_cost::assess;
use population::Population;
use problem_data::{NoMemory, ProblemData, Reads, Solution, Steps};
use random_plans::{random_order, random_solution};
use routing_model::{Assessment, Weights};
use srex::exchange;
use std::alloc::Global;
use std::thread::Threads;
use vrp_num::Xor128;

/// A run that never begins anew.
#[derive(Drop)]
pub struct OwnRun<'d> {
    alloc: Global,
    given: &'d ProblemData,
    params: Params,
    near: Neighbours,
    generator: Xor128,
    penalties: Penalties,
    population: Population,
    reads: Steps<Reads>,
}

/// Whether nothing is exceeded.
fn is_free(excess: Assessment) -> bool {
    excess.load == 0 && excess.warp == 0 && excess.distance == 0
}

impl<'d> OwnRun<'d> {
    /// A run after its random plans. Condition: the parameters are within their ranges.
    pub fn new<R: Threads + Sync>(
        rt: &R,
        alloc: Global,
        given: &'d ProblemData,
        params: Params,
        seed: u32,
    ) -> Result<OwnRun<'d>, NoMemory>
        requires { IsInRange params }
        ensures own { IfOk result IsOwnRun }
        ensures some { IfOk result (λ r. 1 ≤ length (items_of (population_of r.population))) }
    {
        let proximity = Proximity {
            wait: params.neighbourhood.weight_wait_time,
            warp: params.neighbourhood.weight_time_warp,
        };
        let near = neighbours(
            rt,
            alloc,
            given,
            params.neighbourhood.nb_granular,
            proximity,
        )?;
        let mut run = OwnRun {
            alloc,
            given,
            params,
            near,
            generator: Xor128::seeded(seed),
            penalties: Penalties::new(params.penalty),
            population: Population::new(alloc, params.population),
            reads: Steps::new(rt),
        };
        run.populate()?;
        Ok(run)
    }

    /// Makes and adds as many random plans as a population has at least.
    fn populate(&mut self) -> Result<(), NoMemory>
        requires own { IsOwnRun self.old }
        ensures own { OnOk result (IsOwnRun self.new) }
        ensures some { OnOk result (1 ≤ length (items_of (population_of self.new.population))) }
    {
        for _ in 0..self.params.population.min_pop_size {
            let plan = random_solution(self.alloc, self.given, &mut self.generator)?;
            self.add(plan)?;
        }
        Ok(())
    }

    /// Adds a plan. Condition: it is lawful.
    fn add(&mut self, plan: Solution) -> Result<(), NoMemory>
        requires own { IsOwnRun self.old }
        requires lawful { IsTrue (is_lawful self.old.given.now plan.routes) }
        ensures own { OnOk result (IsOwnRun self.new) }
        ensures others { OnOk result (self.new ≡ record self.old { population = self.new.population; reads = self.new.reads }) }
        ensures some { OnOk result (1 ≤ length (items_of (population_of self.new.population))) }
    {
        let weights = self.penalties.weights();
        self.population
            .add(self.alloc, self.given, plan, weights, &mut self.reads)?;
        Ok(())
    }

    /// A child of two selected parents.
    fn child(&mut self) -> Result<Solution, NoMemory>
        requires own { IsOwnRun self.old }
        requires some { 1 ≤ length (items_of (population_of self.old.population)) }
        ensures others { OnOk result (self.new ≡ record self.old { generator = self.new.generator; reads = self.new.reads }) }
        ensures lawful { IfOk result (λ child. IsTrue (is_lawful self.old.given.now child.routes)) }
    {
        let weights = self.penalties.weights();
        let (first, second) = self.population.select(
            self.alloc,
            self.given,
            weights,
            &mut self.generator,
            &mut self.reads,
        )?;
        let child = exchange(
            self.alloc,
            self.given,
            self.population.item(first),
            self.population.item(second),
            weights,
            &mut self.generator,
            &mut self.reads,
        )?;
        Ok(child)
    }

    /// A plan descended in a random order.
    fn descended(
        &mut self,
        plan: &Solution,
        weights: Weights,
        kit: &mut Kit,
    ) -> Result<Solution, NoMemory>
        requires own { IsOwnRun self.old }
        requires lawful { IsTrue (is_lawful self.old.given.now plan.now.routes) }
        requires weights { IsWeighed weights }
        requires kinds { map kind_of kit.old.items ≡ all_kinds }
        ensures kinds { map kind_of kit.new.items ≡ all_kinds }
        ensures others { OnOk result (self.new ≡ record self.old { generator = self.new.generator; reads = self.new.reads }) }
        ensures lawful { IfOk result (λ r. IsTrue (is_lawful self.old.given.now r.routes)) }
    {
        let order = random_order(self.alloc, self.given, &mut self.generator)?;
        let mut search = Search::new(self.alloc, self.given, plan, weights, &mut self.reads)?;
        descend(
            &mut search,
            kit,
            &self.near,
            order.as_slice(),
            &mut self.reads,
        )?;
        search.soundness();
        let descended = search.solution()?;
        Ok(descended)
    }

    /// Descends a plan again by boosted weights, and adds what comes of it where that is feasible.
    fn repair(&mut self, plan: &Solution, kit: &mut Kit) -> Result<(), NoMemory>
        requires own { IsOwnRun self.old }
        requires lawful { IsTrue (is_lawful self.old.given.now plan.now.routes) }
        requires kinds { map kind_of kit.old.items ≡ all_kinds }
        requires some { 1 ≤ length (items_of (population_of self.old.population)) }
        ensures kinds { map kind_of kit.new.items ≡ all_kinds }
        ensures own { OnOk result (IsOwnRun self.new) }
        ensures some { OnOk result (1 ≤ length (items_of (population_of self.new.population))) }
    {
        let weights = self.penalties.boosted(self.params.genetic.repair_booster);
        let repaired = self.descended(plan, weights, kit)?;
        self.given.validity();
        let excess = assess(self.given, &repaired, &mut self.reads);
        if is_free(excess) {
            self.add(repaired)?;
        }
        Ok(())
    }

    /// Adds a descended child, and repairs it by chance where it isn't feasible.
    fn take(&mut self, child: &Solution, kit: &mut Kit) -> Result<(), NoMemory>
        requires own { IsOwnRun self.old }
        requires lawful { IsTrue (is_lawful self.old.given.now child.now.routes) }
        requires kinds { map kind_of kit.old.items ≡ all_kinds }
        ensures kinds { map kind_of kit.new.items ≡ all_kinds }
        ensures own { OnOk result (IsOwnRun self.new) }
        ensures some { OnOk result (1 ≤ length (items_of (population_of self.new.population))) }
    {
        self.given.validity();
        let excess = assess(self.given, child, &mut self.reads);
        self.add(child.copy(self.alloc)?)?;
        self.penalties.register(excess);
        if is_free(excess) {
            return Ok(());
        }
        if self.generator.below(1000) < self.params.genetic.repair_probability {
            self.repair(child, kit)?;
        }
        Ok(())
    }

    /// One iteration.
    pub fn iterate(&mut self, kit: &mut Kit) -> Result<(), NoMemory>
        requires own { IsOwnRun self.old }
        requires kinds { map kind_of kit.old.items ≡ all_kinds }
        requires some { 1 ≤ length (items_of (population_of self.old.population)) }
        ensures kinds { map kind_of kit.new.items ≡ all_kinds }
        ensures own { OnOk result (IsOwnRun self.new) }
        ensures some { OnOk result (1 ≤ length (items_of (population_of self.new.population))) }
    {
        let weights = self.penalties.weights();
        let child = self.child()?;
        let child = self.descended(&child, weights, kit)?;
        self.take(&child, kit)?;
        Ok(())
    }

    /// The cost of the best plan, if one was found.
    pub fn best_cost(&self) -> Option<i128> {
        self.population.best_cost()
    }
}
