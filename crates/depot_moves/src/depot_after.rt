//! Kind DepotAfter: a client is put behind another one, with a reload directly after it.
ghost use Rattle.std.specs.Prelude.{◌≡◌};
ghost use Rattle.search_model.specs.declared.kind.Kind.TheVariants as kind;
ghost use Rattle.gain_model.specs.Operators.{fits_all};

use crate::answering::put_answer;
use move_core::{Candidate, Gain, Kind, Operator, Search, Tally, Target};
use problem_data::{NoMemory, Reads, Steps};
use reload_puts::Beside;
use std::marker::Model;

/// Puts a client behind another one, with a reload directly after it. It remembers nothing of the plan.
#[derive(Drop)]
pub struct DepotAfter {
    tally: Tally,
}

impl Model for DepotAfter {
    ghost use Rattle.std.specs.Prelude.{};
    ghost use Rattle.move_core.specs.declared.tally.Tally.{Tally};

    ghost Value = { Tally };

    ghost view = { λ a. a.tally };
}

impl DepotAfter {
    /// One that has tried nothing.
    pub fn new() -> DepotAfter
        ensures { result ≡ record { tried = 0; applied = 0 } }
    {
        DepotAfter {
            tally: Tally {
                tried: 0,
                applied: 0,
            },
        }
    }
}

impl Operator for DepotAfter {
    ghost kind_of = { λ _. kind.DepotAfter };

    ghost tally_of = { λ tally. tally };

    ghost fits = { λ _. fits_all };

    fn kind(&self) -> Kind {
        Kind::DepotAfter
    }

    fn prepare(&mut self, search: &Search<'_>, reads: &mut Steps<Reads>) -> Result<(), NoMemory> {
        Ok(())
    }

    fn evaluate(
        &mut self,
        search: &Search<'_>,
        candidate: Candidate,
        reads: &mut Steps<Reads>,
    ) -> Option<Gain> {
        self.tally.tried = self.tally.tried.saturating_add(1);
        let Candidate::Node {
            client,
            target: Target::After(neighbour),
            ..
        } = candidate
        else {
            return None;
        };
        put_answer(search, Beside::After, client, neighbour, reads)
    }

    fn changed(&mut self, search: &Search<'_>, vehicle: u32, reads: &mut Steps<Reads>) {}

    fn applied(&mut self) {
        self.tally.applied = self.tally.applied.saturating_add(1);
    }

    fn tally(&self) -> Tally {
        self.tally
    }
}
