//! A reload taken out: kind 13.
ghost use Rattle.std.specs.Prelude.{◌≡◌};
ghost use Rattle.problem_data.specs.Reads.{RoseAtMost};
ghost use Rattle.search_model.specs.declared.kind.Kind.TheVariants.{RemoveDepot as remove_depot};
ghost use Rattle.gain_model.specs.Operators.{fits_all};
ghost use Rattle.list_changes.specs.Moves.{IsAnswerTo};
ghost use Rattle.depot_changes.specs.Removing.{out_candidate};

use depot_changes::reload_out;
use list_changes::{improving_gain, is_dear};
use move_core::{Candidate, Gain, Kind, Operator, Search, Tally};
use problem_data::{NoMemory, Reads, Steps};

/// The reload directly behind a client is taken out. It remembers nothing of the plan.
#[derive(Drop)]
pub struct RemoveDepot {
    tally: Tally,
}

impl RemoveDepot {
    /// One that has tried nothing.
    pub fn new() -> RemoveDepot
        ensures { result ≡ record { tally = record { tried = 0; applied = 0 } } }
    {
        RemoveDepot {
            tally: Tally {
                tried: 0,
                applied: 0,
            },
        }
    }
}

/// The answer to a client: nothing is copied or allocated, and a change that surely doesn't lower the cost isn't costed.
#[inline(never)]
fn answer(search: &Search<'_>, client: u32, reads: &mut Steps<Reads>) -> Option<Gain>
    ensures answer { IsAnswerTo search.now (out_candidate client) result }
    ensures reads { RoseAtMost 14 reads.old reads.new }
{
    let change = reload_out(search, client)?;
    if is_dear(search, change, reads) {
        return None;
    }
    improving_gain(search, change, reads)
}

impl Operator for RemoveDepot {
    ghost kind_of = { λ _. remove_depot };

    ghost tally_of = { λ o. o.tally };

    ghost fits = { λ _. fits_all };

    fn kind(&self) -> Kind {
        Kind::RemoveDepot
    }

    fn prepare(&mut self, search: &Search<'_>, reads: &mut Steps<Reads>) -> Result<(), NoMemory> {
        Ok(())
    }

    fn evaluate(
        &mut self,
        search: &Search<'_>,
        candidate: Candidate,
        reads: &mut Steps<Reads>,
    ) -> Option<Gain> {
        self.tally.tried = self.tally.tried.saturating_add(1);
        match candidate {
            Candidate::Solo { client, .. } => answer(search, client, reads),
            _ => None,
        }
    }

    fn changed(&mut self, search: &Search<'_>, vehicle: u32, reads: &mut Steps<Reads>) {}

    fn applied(&mut self) {
        self.tally.applied = self.tally.applied.saturating_add(1);
    }

    fn tally(&self) -> Tally {
        self.tally
    }
}
