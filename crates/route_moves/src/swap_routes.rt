//! The exchange of two vehicles' lists: kind 17.
ghost use Rattle.std.specs.Prelude.{◌≡◌};
ghost use Rattle.problem_data.specs.Reads.{RoseAtMost};
ghost use Rattle.search_model.specs.declared.kind.Kind.TheVariants.{SwapRoutes as swap_routes};
ghost use Rattle.gain_model.specs.Operators.{fits_all};
ghost use Rattle.list_changes.specs.Moves.{IsAnswerTo};
ghost use Rattle.move_core.specs.Operators.{operator_reads};
ghost use Rattle.route_moves.specs.inside.Wholes.{whole_candidate};

use crate::whole_lists::whole_change;
use list_changes::{improving_gain, is_dear};
use move_core::{Candidate, Gain, Kind, Operator, Search, Tally};
use problem_data::{NoMemory, Reads, Steps};

/// The lists of two vehicles of different types change places. It remembers nothing of the plan.
#[derive(Drop)]
pub struct SwapRoutes {
    tally: Tally,
}

impl SwapRoutes {
    /// An exchange that has tried nothing.
    pub fn new() -> SwapRoutes
        ensures { result ≡ record { tally = record { tried = 0; applied = 0 } } }
    {
        SwapRoutes {
            tally: Tally {
                tried: 0,
                applied: 0,
            },
        }
    }
}

/// The answer to two vehicles: nothing is copied or allocated, and a change that surely doesn't lower the cost isn't costed.
#[inline(never)]
fn answer(search: &Search<'_>, first: u32, second: u32, reads: &mut Steps<Reads>) -> Option<Gain>
    ensures answer { IsAnswerTo search.now (whole_candidate first second) result }
    ensures reads { RoseAtMost (operator_reads search.now.problem search.now.routes (whole_candidate first second)) reads.old reads.new }
{
    let change = whole_change(search, first, second)?;
    if is_dear(search, change, reads) {
        return None;
    }
    improving_gain(search, change, reads)
}

impl Operator for SwapRoutes {
    ghost kind_of = { λ _. swap_routes };

    ghost tally_of = { λ o. o.tally };

    ghost fits = { λ _. fits_all };

    fn kind(&self) -> Kind {
        Kind::SwapRoutes
    }

    fn prepare(&mut self, search: &Search<'_>, reads: &mut Steps<Reads>) -> Result<(), NoMemory> {
        Ok(())
    }

    fn evaluate(
        &mut self,
        search: &Search<'_>,
        candidate: Candidate,
        reads: &mut Steps<Reads>,
    ) -> Option<Gain> {
        self.tally.tried = self.tally.tried.saturating_add(1);
        let Candidate::Routes { first, second, .. } = candidate else {
            return None;
        };
        answer(search, first, second, reads)
    }

    fn changed(&mut self, search: &Search<'_>, vehicle: u32, reads: &mut Steps<Reads>) {}

    fn applied(&mut self) {
        self.tally.applied = self.tally.applied.saturating_add(1);
    }

    fn tally(&self) -> Tally {
        self.tally
    }
}
