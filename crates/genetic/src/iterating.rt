//! Iterations.
ghost use Rattle.std.specs.Prelude.{◌≡◌, ◌+◌, ◌≤◌, ◌<◌, ◌^◌, List, OnOk, length, map};
ghost use Rattle.search_model.specs.Kinds.{all_kinds};
ghost use Rattle.genetic_model.specs.Population.{items_of};
ghost use Rattle.genetic_model.specs.Run as model;
ghost use Rattle.move_core.specs.declared.tally.Tally.{Tally};
ghost use Rattle.population.specs.Populations.{population_of};
ghost use Rattle.genetic.specs.inside.Runs.{IsRunning, IsSameRun, Stands};

use crate::run::Run;
use move_core::{Kit, Operator};
use problem_data::NoMemory;

impl<'d> Run<'d> {
    /// Both counters begin anew where the best changed, and else grow by 1. Condition: both are below the number of iterations.
    fn count_idle(&mut self)
        requires idle { self.old.idle < self.old.iterations }
        requires stale { self.old.stale < self.old.iterations }
        ensures others { self.new ≡ record self.old { idle = self.new.idle; stale = self.new.stale } }
        ensures idle { self.new.idle ≤ self.new.iterations }
        ensures stale { self.new.stale ≤ self.new.iterations }
        ensures stands { (first ts : List Tally) (r : model.Run) → Stands first self.old ts r → Stands first self.new ts (model.with_counters r) }
    {
        if self.improved {
            self.idle = 0;
            self.stale = 0;
        } else {
            self.idle += 1;
            self.stale += 1;
        }
    }

    /// Clears a stale population, and fills it with random plans.
    fn restart(&mut self) -> Result<(), NoMemory>
        requires running { IsRunning self.old }
        requires some { 1 ≤ length (items_of (population_of self.old.population)) }
        requires stale { self.old.stale ≤ self.old.iterations }
        ensures running { OnOk result (IsRunning self.new) }
        ensures same { OnOk result (IsSameRun self.old self.new) }
        ensures iterations { OnOk result (self.new.iterations ≡ self.old.iterations) }
        ensures idle { OnOk result (self.new.idle ≡ self.old.idle) }
        ensures stale { OnOk result (self.new.stale ≤ self.new.iterations) }
        ensures some { OnOk result (1 ≤ length (items_of (population_of self.new.population))) }
        ensures stands { OnOk result ((first ts : List Tally) (r : model.Run) → Stands first self.old ts r → Stands first self.new ts (model.restarted self.old.given.now self.old.params r)) }
    {
        if self.stale == self.params.genetic.nb_iter_no_improvement {
            self.population.clear();
            self.stale = 0;
            self.populate()?;
        }
        Ok(())
    }

    /// One iteration. Conditions: there is an item, and the number of iterations isn't at its last value.
    pub(crate) fn iterate(&mut self, kit: &mut Kit) -> Result<(), NoMemory>
        requires kinds { map kind_of kit.old.items ≡ all_kinds }
        requires some { 1 ≤ length (items_of (population_of self.old.population)) }
        requires running { IsRunning self.old }
        requires more { self.old.iterations + 1 < 2 ^ 64 }
        requires idle { self.old.idle ≤ self.old.iterations }
        requires stale { self.old.stale ≤ self.old.iterations }
        ensures kinds { map kind_of kit.new.items ≡ all_kinds }
        ensures running { OnOk result (IsRunning self.new) }
        ensures same { OnOk result (IsSameRun self.old self.new) }
        ensures some { OnOk result (1 ≤ length (items_of (population_of self.new.population))) }
        ensures iterations { OnOk result (self.new.iterations ≡ self.old.iterations + 1) }
        ensures idle { OnOk result (self.new.idle ≤ self.new.iterations) }
        ensures stale { OnOk result (self.new.stale ≤ self.new.iterations) }
        ensures stands { OnOk result ((first : List Tally) (r : model.Run) → Stands first self.old (map tally_of kit.old.items) r → Stands first self.new (map tally_of kit.new.items) (model.iteration self.old.given.now self.old.params r)) }
    {
        self.improved = false;
        self.iterations += 1;
        self.breed(kit)?;
        self.count_idle();
        self.restart()?;
        Ok(())
    }
}
