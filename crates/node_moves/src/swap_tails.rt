//! The exchange of tails: kind 10.
ghost use Rattle.std.specs.Prelude.{◌≡◌};
ghost use Rattle.problem_data.specs.Reads.{RoseAtMost};
ghost use Rattle.search_model.specs.declared.kind.Kind.TheVariants.{SwapTails as swap_tails};
ghost use Rattle.gain_model.specs.Operators.{fits_all};
ghost use Rattle.list_changes.specs.Moves.{IsAnswerTo};
ghost use Rattle.move_core.specs.Operators.{operator_reads};
ghost use Rattle.tail_changes.specs.Tails.{tail_candidate};

use list_changes::{improving_gain, is_dear};
use move_core::{Candidate, Gain, Kind, Operator, Search, Tally, Target};
use problem_data::{NoMemory, Reads, Steps};
use tail_changes::tail_change;

/// What follows a client in its list changes places with what is at a target in another list. It remembers nothing of the plan.
#[derive(Drop)]
pub struct SwapTails {
    tally: Tally,
}

impl SwapTails {
    /// An exchange of tails that has tried nothing.
    pub fn new() -> SwapTails
        ensures { result ≡ record { tally = record { tried = 0; applied = 0 } } }
    {
        SwapTails {
            tally: Tally {
                tried: 0,
                applied: 0,
            },
        }
    }
}

/// The answer to a client and a target: nothing is copied or allocated, and a change that surely doesn't lower the cost isn't costed.
#[inline(never)]
fn answer(
    search: &Search<'_>,
    client: u32,
    target: Target,
    reads: &mut Steps<Reads>,
) -> Option<Gain>
    ensures answer { IsAnswerTo search.now (tail_candidate client target) result }
    ensures reads { RoseAtMost (operator_reads search.now.problem search.now.routes (tail_candidate client target)) reads.old reads.new }
{
    let change = tail_change(search, client, target)?;
    if is_dear(search, change, reads) {
        return None;
    }
    improving_gain(search, change, reads)
}

impl Operator for SwapTails {
    ghost kind_of = { λ _. swap_tails };

    ghost tally_of = { λ o. o.tally };

    ghost fits = { λ _. fits_all };

    fn kind(&self) -> Kind {
        Kind::SwapTails
    }

    fn prepare(&mut self, search: &Search<'_>, reads: &mut Steps<Reads>) -> Result<(), NoMemory> {
        Ok(())
    }

    fn evaluate(
        &mut self,
        search: &Search<'_>,
        candidate: Candidate,
        reads: &mut Steps<Reads>,
    ) -> Option<Gain> {
        self.tally.tried = self.tally.tried.saturating_add(1);
        match candidate {
            Candidate::Node { client, target, .. } => answer(search, client, target, reads),
            _ => None,
        }
    }

    fn changed(&mut self, search: &Search<'_>, vehicle: u32, reads: &mut Steps<Reads>) {}

    fn applied(&mut self) {
        self.tally.applied = self.tally.applied.saturating_add(1);
    }

    fn tally(&self) -> Tally {
        self.tally
    }
}
