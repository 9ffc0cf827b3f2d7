//! Kind Insert: a client that isn't visited is put in.
ghost use Rattle.std.specs.Prelude.{◌≡◌, None, IsTrue};
ghost use Rattle.std.specs.Option.{MatchOption};
ghost use Rattle.problem_data.specs.Reads.{RoseAtMost};
ghost use Rattle.search_model.specs.declared.candidate.Candidate.TheVariants.{Node};
ghost use Rattle.search_model.specs.declared.kind.Kind.TheVariants as kind;
ghost use Rattle.gain_model.specs.Operators.{fits_all};
ghost use Rattle.new_lists.specs.Moves.{IsAnswerTo};
ghost use Rattle.group_moves.specs.inside.Lists.{MakesList};

use crate::members::{is_client, may_come};
use list_changes::aim_of;
use move_core::{Candidate, Gain, Kind, Operator, Part, Search, Tally, Target};
use new_lists::{NewList, NewLists, improving_gain};
use problem_data::{NoMemory, Reads, Steps};
use std::marker::Model;

/// Puts a client that isn't visited to a target. It remembers nothing of the plan.
#[derive(Drop)]
pub struct Insert {
    tally: Tally,
}

impl Model for Insert {
    ghost use Rattle.std.specs.Prelude.{};
    ghost use Rattle.move_core.specs.declared.tally.Tally.{Tally};

    ghost Value = { Tally };

    ghost view = { λ a. a.tally };
}

impl Insert {
    /// One that has tried nothing.
    pub fn new() -> Insert
        ensures { result ≡ record { tried = 0; applied = 0 } }
    {
        Insert {
            tally: Tally {
                tried: 0,
                applied: 0,
            },
        }
    }
}

/// The list with a client put to a target. None where that isn't allowed.
fn list_with(search: &Search<'_>, client: u32, target: Target) -> Option<NewList>
    ensures { MatchOption result (IsAnswerTo search.now (Node kind.Insert client target) None) (λ list. MakesList search.now (Node kind.Insert client target) list) }
{
    if search.position(client).is_some() {
        return None;
    }
    let aim = aim_of(search, target)?;
    if !is_client(search, client) {
        return None;
    }
    if !may_come(search, client) {
        return None;
    }
    let alone = Part::Client(client);
    Some(NewList::with_part(aim.vehicle, aim.place, alone, aim.place))
}

/// The gain of a client put to a target, where it lowers the cost.
fn answer(
    search: &Search<'_>,
    client: u32,
    target: Target,
    reads: &mut Steps<Reads>,
) -> Option<Gain>
    ensures answer { IsAnswerTo search.now (Node kind.Insert client target) result }
    ensures reads { RoseAtMost 6 reads.old reads.new }
{
    let list = list_with(search, client, target)?;
    improving_gain(search, NewLists::One(list), reads)
}

impl Operator for Insert {
    ghost kind_of = { λ _. kind.Insert };

    ghost tally_of = { λ tally. tally };

    ghost fits = { λ _. fits_all };

    fn kind(&self) -> Kind {
        Kind::Insert
    }

    fn prepare(&mut self, search: &Search<'_>, reads: &mut Steps<Reads>) -> Result<(), NoMemory> {
        Ok(())
    }

    fn evaluate(
        &mut self,
        search: &Search<'_>,
        candidate: Candidate,
        reads: &mut Steps<Reads>,
    ) -> Option<Gain> {
        self.tally.tried = self.tally.tried.saturating_add(1);
        let Candidate::Node { client, target, .. } = candidate else {
            return None;
        };
        answer(search, client, target, reads)
    }

    fn changed(&mut self, search: &Search<'_>, vehicle: u32, reads: &mut Steps<Reads>) {}

    fn applied(&mut self) {
        self.tally.applied = self.tally.applied.saturating_add(1);
    }

    fn tally(&self) -> Tally {
        self.tally
    }
}
