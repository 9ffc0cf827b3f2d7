//! Children: exchanged, descended, added, and repaired by chance.
ghost use Rattle.std.specs.Prelude.{◌≡◌, ◌≤◌, ◌&&◌, [], ◌∷◌, List, IfOk, OnOk, IsTrue, length, map, pos};
ghost use Rattle.std.specs.Ordering.{int_eq};
ghost use Rattle.penalty_cost.specs.Plans.{IsWeighed};
ghost use Rattle.routing_model.specs.Feasible.{assessment, is_feasible};
ghost use Rattle.routing_model.specs.Lawful.{is_lawful};
ghost use Rattle.search_model.specs.Kinds.{all_kinds};
ghost use Rattle.genetic_model.specs.Population.{items_of};
ghost use Rattle.random_model.specs.Draws.{below};
ghost use Rattle.genetic_model.specs.RandomDescent.{random_descent};
ghost use Rattle.genetic_model.specs.Run as model;
ghost use Rattle.move_core.specs.declared.tally.Tally.{Tally};
ghost use Rattle.random_descents.specs.Rises.{RoseOver};
ghost use Rattle.population.specs.Populations.{population_of};
ghost use Rattle.genetic.specs.inside.Runs.{IsDescended, IsRunning, IsSameIteration, Stands, reached};

use crate::run::Run;
use move_core::{Kit, Operator};
use penalty_cost::assess;
use problem_data::{NoMemory, Solution};
use routing_model::{Assessment, Weights};
use srex::exchange;

/// Whether nothing is exceeded.
fn is_free(excess: Assessment) -> bool
    ensures { result ≡ (int_eq excess.load (pos 0) && int_eq excess.warp (pos 0) && int_eq excess.distance (pos 0)) }
{
    excess.load == 0 && excess.warp == 0 && excess.distance == 0
}

impl<'d> Run<'d> {
    /// A child of two selected parents, by the weights that hold. Condition: there is an item.
    fn offspring(&mut self) -> Result<Solution, NoMemory>
        requires running { IsRunning self.old }
        requires some { 1 ≤ length (items_of (population_of self.old.population)) }
        ensures others { OnOk result (self.new ≡ record self.old { generator = self.new.generator; reads = self.new.reads }) }
        ensures running { OnOk result (IsRunning self.new) }
        ensures same { OnOk result (IsSameIteration self.old self.new) }
        ensures child { IfOk result (λ child. (child.routes ≡ (model.offspring self.old.given.now (reached self.old [])).value) × (self.new.generator ≡ (model.offspring self.old.given.now (reached self.old [])).state)) }
        ensures lawful { IfOk result (λ child. IsTrue (is_lawful self.old.given.now child.routes)) }
    {
        let weights = self.penalties.weights();
        let (first, second) = self.population.select(
            self.alloc,
            self.given,
            weights,
            &mut self.generator,
            &mut self.reads,
        )?;
        let child = exchange(
            self.alloc,
            self.given,
            self.population.item(first),
            self.population.item(second),
            weights,
            &mut self.generator,
            &mut self.reads,
        )?;
        Ok(child)
    }

    /// A plan descended by some weights in a random order. Conditions: it is lawful, no weight exceeds 10^9, and the kit has an operator
    /// of each kind, in order.
    fn descended(
        &mut self,
        plan: &Solution,
        weights: Weights,
        kit: &mut Kit,
    ) -> Result<Solution, NoMemory>
        requires running { IsRunning self.old }
        requires lawful { IsTrue (is_lawful self.old.given.now plan.now.routes) }
        requires weights { IsWeighed weights }
        requires kinds { map kind_of kit.old.items ≡ all_kinds }
        ensures kinds { map kind_of kit.new.items ≡ all_kinds }
        ensures others { OnOk result (self.new ≡ record self.old { generator = self.new.generator; reads = self.new.reads }) }
        ensures running { OnOk result (IsRunning self.new) }
        ensures same { OnOk result (IsSameIteration self.old self.new) }
        ensures descended { IfOk result (λ r. IsDescended (random_descent self.old.given.now self.old.params.neighbourhood weights plan.now.routes self.old.generator) self.old (map tally_of kit.old.items) r.routes self.new (map tally_of kit.new.items)) }
        ensures lawful { IfOk result (λ r. IsTrue (is_lawful self.old.given.now r.routes)) }
    {
        let descended = self
            .descents
            .descend(plan, weights, kit, &mut self.generator, &mut self.reads)?;
        Ok(descended)
    }

    /// Descends a plan again by boosted weights, and adds what comes of it where that is feasible.
    fn repair(&mut self, plan: &Solution, kit: &mut Kit) -> Result<(), NoMemory>
        requires running { IsRunning self.old }
        requires lawful { IsTrue (is_lawful self.old.given.now plan.now.routes) }
        requires kinds { map kind_of kit.old.items ≡ all_kinds }
        requires some { 1 ≤ length (items_of (population_of self.old.population)) }
        ensures kinds { map kind_of kit.new.items ≡ all_kinds }
        ensures running { OnOk result (IsRunning self.new) }
        ensures same { OnOk result (IsSameIteration self.old self.new) }
        ensures some { OnOk result (1 ≤ length (items_of (population_of self.new.population))) }
        ensures stands { OnOk result ((first : List Tally) (r : model.Run) → Stands first self.old (map tally_of kit.old.items) r → Stands first self.new (map tally_of kit.new.items) (model.repaired self.old.given.now self.old.params plan.now.routes r)) }
    {
        let weights = self.penalties.boosted(self.params.genetic.repair_booster);
        let repaired = self.descended(plan, weights, kit)?;
        self.given.validity();
        let excess = assess(self.given, &repaired, &mut self.reads);
        if is_free(excess) {
            self.admit(repaired)?;
        }
        Ok(())
    }

    /// Repairs a plan where the draw is below the probability.
    fn repair_by_chance(&mut self, plan: &Solution, kit: &mut Kit) -> Result<(), NoMemory>
        requires running { IsRunning self.old }
        requires lawful { IsTrue (is_lawful self.old.given.now plan.now.routes) }
        requires kinds { map kind_of kit.old.items ≡ all_kinds }
        requires some { 1 ≤ length (items_of (population_of self.old.population)) }
        ensures kinds { map kind_of kit.new.items ≡ all_kinds }
        ensures running { OnOk result (IsRunning self.new) }
        ensures same { OnOk result (IsSameIteration self.old self.new) }
        ensures some { OnOk result (1 ≤ length (items_of (population_of self.new.population))) }
        ensures stands { OnOk result ((first : List Tally) (r : model.Run) → Stands first self.old (map tally_of kit.old.items) r → Stands first self.new (map tally_of kit.new.items) (model.repaired_by self.old.given.now self.old.params plan.now.routes (below 1000 r.state) r)) }
    {
        if self.generator.below(1000) < self.params.genetic.repair_probability {
            self.repair(plan, kit)?;
        }
        Ok(())
    }

    /// Adds and registers a descended child, and repairs it by chance where it isn't feasible.
    fn take_child(&mut self, child: &Solution, kit: &mut Kit) -> Result<(), NoMemory>
        requires running { IsRunning self.old }
        requires lawful { IsTrue (is_lawful self.old.given.now child.now.routes) }
        requires kinds { map kind_of kit.old.items ≡ all_kinds }
        ensures kinds { map kind_of kit.new.items ≡ all_kinds }
        ensures running { OnOk result (IsRunning self.new) }
        ensures same { OnOk result (IsSameIteration self.old self.new) }
        ensures some { OnOk result (1 ≤ length (items_of (population_of self.new.population))) }
        ensures stands { OnOk result ((first : List Tally) (r : model.Run) → Stands first self.old (map tally_of kit.old.items) r → Stands first self.new (map tally_of kit.new.items) (model.maybe_repaired self.old.given.now self.old.params child.now.routes (model.with_registration self.old.given.now child.now.routes (model.admitted self.old.given.now child.now.routes r)))) }
    {
        self.given.validity();
        let excess = assess(self.given, child, &mut self.reads);
        self.admit(child.copy(self.alloc)?)?;
        self.penalties.register(excess);
        if is_free(excess) {
            return Ok(());
        }
        self.repair_by_chance(child, kit)?;
        Ok(())
    }

    /// Selects, exchanges and descends, with all that follows from the child. Condition: there is an item.
    pub(crate) fn breed(&mut self, kit: &mut Kit) -> Result<(), NoMemory>
        requires running { IsRunning self.old }
        requires kinds { map kind_of kit.old.items ≡ all_kinds }
        requires some { 1 ≤ length (items_of (population_of self.old.population)) }
        ensures kinds { map kind_of kit.new.items ≡ all_kinds }
        ensures running { OnOk result (IsRunning self.new) }
        ensures same { OnOk result (IsSameIteration self.old self.new) }
        ensures some { OnOk result (1 ≤ length (items_of (population_of self.new.population))) }
        ensures stands { OnOk result ((first : List Tally) (r : model.Run) → Stands first self.old (map tally_of kit.old.items) r → Stands first self.new (map tally_of kit.new.items) (model.bred self.old.given.now self.old.params r)) }
    {
        let weights = self.penalties.weights();
        let child = self.offspring()?;
        let child = self.descended(&child, weights, kit)?;
        self.take_child(&child, kit)?;
        Ok(())
    }
}
