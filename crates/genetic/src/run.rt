//! A run of the search, and how plans come into it.
ghost use Rattle.std.specs.Prelude.{◌≤◌, List, OnOk, IsTrue, length};
ghost use Rattle.routing_model.specs.Lawful.{is_lawful};
ghost use Rattle.genetic_model.specs.Population.{items_of};
ghost use Rattle.genetic_model.specs.Run as model;
ghost use Rattle.population.specs.Populations.{population_of};
ghost use Rattle.genetic.specs.inside.Runs.{IsRunning, IsSameIteration, Stands};
ghost use Rattle.move_core.specs.declared.tally.Tally.{Tally};

use genetic_model::Params;
use penalties::Penalties;
use population::Population;
use problem_data::{NoMemory, ProblemData, Reads, Solution, Steps};
use random_descents::RandomDescents;
use srex::random_solution;
use std::alloc::Global;
use vrp_num::Xor128;

/// How far a run has come.
#[derive(Drop)]
pub(crate) struct Run<'d> {
    pub(crate) alloc: Global,
    pub(crate) given: &'d ProblemData,
    pub(crate) params: Params,
    pub(crate) descents: RandomDescents<'d>,
    pub(crate) generator: Xor128,
    pub(crate) penalties: Penalties,
    pub(crate) population: Population,
    /// Iterations since the best changed.
    pub(crate) idle: u64,
    /// Iterations since the best changed or the population was cleared.
    pub(crate) stale: u64,
    /// Whether the best changed in this iteration.
    pub(crate) improved: bool,
    pub(crate) iterations: u64,
    pub(crate) reads: Steps<Reads>,
}

impl<'d> Run<'d> {
    /// Adds a plan, with the weights that hold. Condition: it is lawful.
    pub(crate) fn admit(&mut self, plan: Solution) -> Result<(), NoMemory>
        requires running { IsRunning self.old }
        requires lawful { IsTrue (is_lawful self.old.given.now plan.routes) }
        ensures running { OnOk result (IsRunning self.new) }
        ensures same { OnOk result (IsSameIteration self.old self.new) }
        ensures some { OnOk result (1 ≤ length (items_of (population_of self.new.population))) }
        ensures stands { OnOk result ((first ts : List Tally) (r : model.Run) → Stands first self.old ts r → Stands first self.new ts (model.admitted self.old.given.now plan.routes r)) }
    {
        let weights = self.penalties.weights();
        if self
            .population
            .add(self.alloc, self.given, plan, weights, &mut self.reads)?
        {
            self.improved = true;
        }
        Ok(())
    }

    /// Makes and adds a random plan.
    fn add_random(&mut self) -> Result<(), NoMemory>
        requires running { IsRunning self.old }
        ensures running { OnOk result (IsRunning self.new) }
        ensures same { OnOk result (IsSameIteration self.old self.new) }
        ensures some { OnOk result (1 ≤ length (items_of (population_of self.new.population))) }
        ensures stands { OnOk result ((first ts : List Tally) (r : model.Run) → Stands first self.old ts r → Stands first self.new ts (model.with_random self.old.given.now r)) }
    {
        let plan = random_solution(self.alloc, self.given, &mut self.generator)?;
        self.admit(plan)?;
        Ok(())
    }

    /// Makes and adds as many random plans as a population has at least.
    pub(crate) fn populate(&mut self) -> Result<(), NoMemory>
        requires running { IsRunning self.old }
        ensures running { OnOk result (IsRunning self.new) }
        ensures same { OnOk result (IsSameIteration self.old self.new) }
        ensures some { OnOk result (1 ≤ length (items_of (population_of self.new.population))) }
        ensures stands { OnOk result ((first ts : List Tally) (r : model.Run) → Stands first self.old ts r → Stands first self.new ts (model.populated self.old.given.now self.old.params r)) }
    {
        for _ in 0..self.params.population.min_pop_size {
            self.add_random()?;
        }
        Ok(())
    }
}
