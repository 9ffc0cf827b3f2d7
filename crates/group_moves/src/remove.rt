//! Kind Remove: a visited client is taken out.
ghost use Rattle.std.specs.Prelude.{◌≡◌, None};
ghost use Rattle.std.specs.Option.{MatchOption};
ghost use Rattle.problem_data.specs.Reads.{RoseAtMost};
ghost use Rattle.search_model.specs.declared.candidate.Candidate.TheVariants.{Solo};
ghost use Rattle.search_model.specs.declared.kind.Kind.TheVariants as kind;
ghost use Rattle.gain_model.specs.Operators.{fits_all};
ghost use Rattle.new_lists.specs.Moves.{IsAnswerTo};
ghost use Rattle.group_moves.specs.inside.Lists.{MakesList};

use crate::members::may_go;
use list_changes::gap_of;
use move_core::{Candidate, Gain, Kind, Operator, Search, Tally};
use new_lists::{NewList, NewLists, improving_gain, nothing};
use problem_data::{NoMemory, Reads, Steps};
use std::marker::Model;

/// Takes a visited client out. It remembers nothing of the plan.
#[derive(Drop)]
pub struct Remove {
    tally: Tally,
}

impl Model for Remove {
    ghost use Rattle.std.specs.Prelude.{};
    ghost use Rattle.move_core.specs.declared.tally.Tally.{Tally};

    ghost Value = { Tally };

    ghost view = { λ a. a.tally };
}

impl Remove {
    /// One that has tried nothing.
    pub fn new() -> Remove
        ensures { result ≡ record { tried = 0; applied = 0 } }
    {
        Remove {
            tally: Tally {
                tried: 0,
                applied: 0,
            },
        }
    }
}

/// The list without a client, tidied. None where that isn't allowed.
fn list_without(search: &Search<'_>, client: u32) -> Option<NewList>
    ensures { MatchOption result (IsAnswerTo search.now (Solo kind.Remove client) None) (λ list. MakesList search.now (Solo kind.Remove client) list) }
{
    let (vehicle, place) = search.position(client)?;
    if !may_go(search, client) {
        return None;
    }
    let gap = gap_of(search.route(vehicle), place - 1, place);
    Some(NewList::with_part(vehicle, gap.left, nothing(vehicle), gap.right))
}

/// The gain of taking a client out, where it lowers the cost.
fn answer(search: &Search<'_>, client: u32, reads: &mut Steps<Reads>) -> Option<Gain>
    ensures answer { IsAnswerTo search.now (Solo kind.Remove client) result }
    ensures reads { RoseAtMost 6 reads.old reads.new }
{
    let list = list_without(search, client)?;
    improving_gain(search, NewLists::One(list), reads)
}

impl Operator for Remove {
    ghost kind_of = { λ _. kind.Remove };

    ghost tally_of = { λ tally. tally };

    ghost fits = { λ _. fits_all };

    fn kind(&self) -> Kind {
        Kind::Remove
    }

    fn prepare(&mut self, search: &Search<'_>, reads: &mut Steps<Reads>) -> Result<(), NoMemory> {
        Ok(())
    }

    fn evaluate(
        &mut self,
        search: &Search<'_>,
        candidate: Candidate,
        reads: &mut Steps<Reads>,
    ) -> Option<Gain> {
        self.tally.tried = self.tally.tried.saturating_add(1);
        let Candidate::Solo { client, .. } = candidate else {
            return None;
        };
        answer(search, client, reads)
    }

    fn changed(&mut self, search: &Search<'_>, vehicle: u32, reads: &mut Steps<Reads>) {}

    fn applied(&mut self) {
        self.tally.applied = self.tally.applied.saturating_add(1);
    }

    fn tally(&self) -> Tally {
        self.tally
    }
}
