//! The swap of two clients, each to its best place in the other's list: kind 18.
ghost use Rattle.std.specs.Prelude.{◌≡◌, ◌≤◌, length};
ghost use Rattle.problem_data.specs.Limits.{most_visits};
ghost use Rattle.problem_data.specs.Reads.{RoseAtMost};
ghost use Rattle.search_model.specs.declared.kind.Kind.TheVariants.{SwapStar as swap_star};
ghost use Rattle.move_core.specs.Operators.{operator_reads};
ghost use Rattle.new_lists.specs.Moves.{IsAnswerTo};
ghost use Rattle.route_moves.specs.inside.Stars.{star_candidate};

use crate::star_lists::{lists_of, star_pair};
use crate::star_screen::is_dear;
use move_core::{Candidate, Gain, Kind, Operator, Search, Tally};
use new_lists::improving_gain;
use problem_data::{MOST_VISITS, NoMemory, Reads, Steps, limits_are_defined};
use star_places::ThreePlaces;
use std::alloc::Global;
use std::marker::Model;

/// The swap of a client of one list and a client of another one, each to its best place in the other's list (SWAP*; Vidal 2022). It
/// remembers nothing of the plan; it keeps room for the best places of a list's clients.
#[derive(Drop)]
pub struct SwapStar {
    tally: Tally,
    kept: Vec<ThreePlaces>,
}

impl SwapStar {
    /// A swap that has tried nothing.
    pub fn new(alloc: Global) -> SwapStar
        ensures { result.tally ≡ record { tried = 0; applied = 0 } }
    {
        SwapStar {
            tally: Tally {
                tried: 0,
                applied: 0,
            },
            kept: Vec::new(alloc),
        }
    }
}

/// The answer to two vehicles: nothing is copied, and a swap that surely doesn't lower the cost isn't costed. `kept` has room for each
/// list.
fn answer(
    search: &Search<'_>,
    first: u32,
    second: u32,
    kept: &mut [ThreePlaces],
    reads: &mut Steps<Reads>,
) -> Option<Gain>
    requires room { most_visits ≤ length kept.old }
    ensures answer { IsAnswerTo search.now (star_candidate first second) result }
    ensures room { length kept.new ≡ length kept.old }
    ensures reads { RoseAtMost (operator_reads search.now.problem search.now.routes (star_candidate first second)) reads.old reads.new }
{
    search.soundness();
    let pair = star_pair(search, first, second, kept, reads)?;
    if is_dear(search, first, second, pair) {
        return None;
    }
    improving_gain(search, lists_of(search, first, second, pair), reads)
}

impl Operator for SwapStar {
    ghost kind_of = { λ _. swap_star };

    ghost tally_of = { λ o. o.tally };

    ghost fits = { λ o _ _ _. most_visits ≤ length o.kept.items };

    fn kind(&self) -> Kind {
        Kind::SwapStar
    }

    fn prepare(&mut self, search: &Search<'_>, reads: &mut Steps<Reads>) -> Result<(), NoMemory> {
        limits_are_defined();
        self.kept.resize(MOST_VISITS as usize, ThreePlaces::none())?;
        Ok(())
    }

    fn evaluate(
        &mut self,
        search: &Search<'_>,
        candidate: Candidate,
        reads: &mut Steps<Reads>,
    ) -> Option<Gain> {
        self.tally.tried = self.tally.tried.saturating_add(1);
        let Candidate::Routes { first, second, .. } = candidate else {
            return None;
        };
        answer(search, first, second, &mut self.kept, reads)
    }

    fn changed(&mut self, search: &Search<'_>, vehicle: u32, reads: &mut Steps<Reads>) {}

    fn applied(&mut self) {
        self.tally.applied = self.tally.applied.saturating_add(1);
    }

    fn tally(&self) -> Tally {
        self.tally
    }
}
