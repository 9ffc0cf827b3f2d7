//! Kind Replace: a client that isn't visited takes another one's place.
ghost use Rattle.std.specs.Prelude.{◌≡◌, None};
ghost use Rattle.std.specs.Option.{MatchOption};
ghost use Rattle.problem_data.specs.Reads.{RoseAtMost};
ghost use Rattle.search_model.specs.declared.candidate.Candidate.TheVariants.{Node};
ghost use Rattle.search_model.specs.declared.candidate.Target.TheVariants.{After};
ghost use Rattle.search_model.specs.declared.kind.Kind.TheVariants as kind;
ghost use Rattle.gain_model.specs.Operators.{fits_all};
ghost use Rattle.new_lists.specs.Moves.{IsAnswerTo};
ghost use Rattle.group_moves.specs.inside.Lists.{MakesList};

use crate::members::{is_client, may_stand_for};
use move_core::{Candidate, Gain, Kind, Operator, Part, Search, Tally, Target};
use new_lists::{NewList, NewLists, improving_gain};
use problem_data::{NoMemory, Reads, Steps};
use std::marker::Model;

/// Puts a client that isn't visited in the place of one that is. It remembers nothing of the plan.
#[derive(Drop)]
pub struct Replace {
    tally: Tally,
}

impl Model for Replace {
    ghost use Rattle.std.specs.Prelude.{};
    ghost use Rattle.move_core.specs.declared.tally.Tally.{Tally};

    ghost Value = { Tally };

    ghost view = { λ a. a.tally };
}

impl Replace {
    /// One that has tried nothing.
    pub fn new() -> Replace
        ensures { result ≡ record { tried = 0; applied = 0 } }
    {
        Replace {
            tally: Tally {
                tried: 0,
                applied: 0,
            },
        }
    }
}

/// The list with a client in another one's place. None where that isn't allowed.
fn list_with(search: &Search<'_>, client: u32, other: u32) -> Option<NewList>
    ensures { MatchOption result (IsAnswerTo search.now (Node kind.Replace client (After other)) None) (λ list. MakesList search.now (Node kind.Replace client (After other)) list) }
{
    if search.position(client).is_some() {
        return None;
    }
    let (vehicle, place) = search.position(other)?;
    if !is_client(search, client) {
        return None;
    }
    if !may_stand_for(search, client, other) {
        return None;
    }
    Some(NewList::with_part(vehicle, place - 1, Part::Client(client), place))
}

/// The gain of a client in another one's place, where it lowers the cost.
fn answer(search: &Search<'_>, client: u32, other: u32, reads: &mut Steps<Reads>) -> Option<Gain>
    ensures answer { IsAnswerTo search.now (Node kind.Replace client (After other)) result }
    ensures reads { RoseAtMost 6 reads.old reads.new }
{
    let list = list_with(search, client, other)?;
    improving_gain(search, NewLists::One(list), reads)
}

impl Operator for Replace {
    ghost kind_of = { λ _. kind.Replace };

    ghost tally_of = { λ tally. tally };

    ghost fits = { λ _. fits_all };

    fn kind(&self) -> Kind {
        Kind::Replace
    }

    fn prepare(&mut self, search: &Search<'_>, reads: &mut Steps<Reads>) -> Result<(), NoMemory> {
        Ok(())
    }

    fn evaluate(
        &mut self,
        search: &Search<'_>,
        candidate: Candidate,
        reads: &mut Steps<Reads>,
    ) -> Option<Gain> {
        self.tally.tried = self.tally.tried.saturating_add(1);
        let Candidate::Node {
            client,
            target: Target::After(other),
            ..
        } = candidate
        else {
            return None;
        };
        answer(search, client, other, reads)
    }

    fn changed(&mut self, search: &Search<'_>, vehicle: u32, reads: &mut Steps<Reads>) {}

    fn applied(&mut self) {
        self.tally.applied = self.tally.applied.saturating_add(1);
    }

    fn tally(&self) -> Tally {
        self.tally
    }
}
