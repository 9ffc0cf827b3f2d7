//! The whole run.
ghost use Rattle.std.specs.Prelude.{◌≡◌, ◌-◌, ◌≤◌, [], List, IfOk, OnOk, length, map};
ghost use Rattle.routing_model.specs.Best.{IsFeasibleBest};
ghost use Rattle.search_model.specs.Kinds.{all_kinds};
ghost use Rattle.genetic_model.specs.Population.{items_of};
ghost use Rattle.genetic_model.specs.Ranges.{IsInRange};
ghost use Rattle.genetic_model.specs.Run as model;
ghost use Rattle.move_core.specs.declared.tally.Tally.{Tally};
ghost use Rattle.random_descents.specs.Rises.{RoseOver};
ghost use Rattle.genetic.specs.Found.{IsFoundAs};
ghost use Rattle.population.specs.Populations.{population_of};
ghost use Rattle.genetic.specs.inside.Runs.{IsRunning, IsSameRun, Stands, reached};

use crate::found::Found;
use crate::run::Run;
use genetic_model::{Params, run_finds_feasible};
use move_core::{Kit, Operator};
use penalties::Penalties;
use population::Population;
use problem_data::{NoMemory, ProblemData, Steps};
use random_descents::RandomDescents;
use std::alloc::Global;
use std::thread::Threads;
use vrp_num::Xor128;

impl<'d> Run<'d> {
    /// A run with nothing in it. Condition: the parameters are within their ranges.
    fn empty<R: Threads + Sync>(
        rt: &R,
        alloc: Global,
        given: &'d ProblemData,
        params: Params,
        seed: u32,
    ) -> Result<Run<'d>, NoMemory>
        requires { IsInRange params }
        ensures running { IfOk result IsRunning }
        ensures problem { IfOk result (λ run. run.given.now ≡ given.now) }
        ensures params { IfOk result (λ run. run.params ≡ params) }
        ensures idle { IfOk result (λ run. run.idle ≡ 0) }
        ensures stale { IfOk result (λ run. run.stale ≡ 0) }
        ensures iterations { IfOk result (λ run. run.iterations ≡ 0) }
        ensures empty { IfOk result (λ run. reached run [] ≡ model.empty_run params seed) }
    {
        let descents = RandomDescents::new(rt, alloc, given, params.neighbourhood)?;
        Ok(Run {
            alloc,
            given,
            params,
            descents,
            generator: Xor128::seeded(seed),
            penalties: Penalties::new(params.penalty),
            population: Population::new(alloc, params.population),
            idle: 0,
            stale: 0,
            improved: false,
            iterations: 0,
            reads: Steps::new(rt),
        })
    }

    /// Whether the best hasn't changed for as many iterations as are allowed.
    fn is_stalled(&self) -> bool
        ensures { result ≡ model.is_stalled self.now.params.no_improvement self.now.idle }
    {
        match self.params.no_improvement {
            Some(limit) => limit <= self.idle,
            None => false,
        }
    }

    /// Iterates to the end of the run. Condition: there is an item.
    fn go_on(&mut self, kit: &mut Kit) -> Result<(), NoMemory>
        requires running { IsRunning self.old }
        requires idle { self.old.idle ≤ self.old.iterations }
        requires stale { self.old.stale ≤ self.old.iterations }
        requires kinds { map kind_of kit.old.items ≡ all_kinds }
        requires some { 1 ≤ length (items_of (population_of self.old.population)) }
        ensures kinds { map kind_of kit.new.items ≡ all_kinds }
        ensures running { OnOk result (IsRunning self.new) }
        ensures same { OnOk result (IsSameRun self.old self.new) }
        ensures stands { OnOk result ((first : List Tally) (r : model.Run) → Stands first self.old (map tally_of kit.old.items) r → Stands first self.new (map tally_of kit.new.items) (model.run_on self.old.given.now self.old.params (self.old.params.max_iterations - self.old.iterations) r)) }
    {
        let last = self.params.max_iterations;
        while self.iterations < last {
            if self.is_stalled() {
                return Ok(());
            }
            self.iterate(kit)?;
        }
        Ok(())
    }

    /// What was found. Refused only where memory runs out.
    fn found(&self) -> Result<Found, NoMemory>
        ensures { IfOk result (IsFoundAs (model.found_by (reached self.now []))) }
    {
        let best = match self.population.best() {
            Some(plan) => Some(plan.copy(self.alloc)?),
            None => None,
        };
        Ok(Found {
            best,
            cost: self.population.best_cost(),
            iterations: self.iterations,
        })
    }
}

/// The genetic search of a problem (after Vidal and others 2012, and Wouda, Lan and Kool 2024).
///
/// As many random plans are made as a population has at least. Each iteration selects two parents, exchanges their routes, descends
/// the child in a random order of the clients and adds it; the penalties follow the shares of plans without excess; a child that isn't
/// feasible is descended again by chance, with boosted weights. Where the best hasn't changed for long, the population begins anew. The
/// best is the feasible plan of least cost, the first on a tie.
///
/// Conditions: the parameters of the four tables are within their ranges, and the kit has an operator of each kind, in order; they
/// stay. Refused only where memory runs out; the kit is dropped then.
pub fn solve<R: Threads + Sync>(
    rt: &R,
    alloc: Global,
    given: &ProblemData,
    params: Params,
    seed: u32,
    mut kit: Kit,
) -> Result<(Found, Kit), NoMemory>
    requires params { IsInRange params }
    requires kinds { map kind_of kit.items ≡ all_kinds }
    ensures found { IfOk result (λ r. IsFoundAs (model.found_by (model.run given.now params seed)) r.0) }
    ensures feasible { IsFeasibleBest given.now (model.run given.now params seed).population.best }
    ensures kinds { IfOk result (λ r. map kind_of r.1.items ≡ all_kinds) }
    ensures rises { IfOk result (λ r. RoseOver given.now params.neighbourhood (model.run given.now params seed).descents (map tally_of kit.items) (map tally_of r.1.items)) }
{
    run_finds_feasible();
    let mut run = Run::empty(rt, alloc, given, params, seed)?;
    run.populate()?;
    run.go_on(&mut kit)?;
    let found = run.found()?;
    Ok((found, kit))
}
