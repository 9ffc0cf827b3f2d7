//! Proposals: new lists of one vehicle or two, by views.
ghost use Rattle.std.specs.Prelude.{◌≡◌, ◌≢◌, ◌<◌, [], ◌↔◌, pos, ◌+ℤ◌, ◌≤ℤ◌, None, Some, IsOk, OnOk, OnErr, length, option_map};
ghost use Rattle.problem_data.specs.Reads.{RoseAtMost};
ghost use Rattle.gain_model.specs.GainReads.{gain_reads};
ghost use Rattle.penalty_cost.specs.Plans.{IsWeighed};
ghost use Rattle.penalty_cost.specs.Proposals.{CanBeCosted, CanPush, HasSides, IsImproving, IsItsGain, gain_side, pushed, seen_sides, views_at};
ghost use Rattle.penalty_cost.specs.inside.Sides.{most_change, second_change, second_reads};

use crate::full::Full;
use crate::gain::Gain;
use crate::proposed_side::ProposedSide;
use crate::side_parts::SideParts;
use gain_model::Side;
use problem_data::{ProblemData, Reads, Steps};
use route_cache::{Route, View};
use routing_model::Weights;
use std::marker::Model;

/// New lists of one vehicle or two, as views of routes in order. It keeps from each side's route its vehicle, what its list adds up
/// to, and references to its visits and to the problem.
#[derive(Drop)]
pub struct Proposal<'r> {
    given: &'r ProblemData,
    first: ProposedSide<'r>,
    second: Option<ProposedSide<'r>>,
}

impl<'r> Model for Proposal<'r> {
    ghost use Rattle.penalty_cost.specs.Proposals.{ProposalState};
    ghost use Rattle.penalty_cost.specs.inside.ProposedSides.{AreSides, proposal_of};

    ghost Value = { ProposalState };

    ghost view = { λ a. proposal_of a.given.now a.first a.second };

    ghost invariant = { λ a. AreSides a.given.now a.first a.second };
}

impl<'r> Proposal<'r> {
    /// No views yet, for one route.
    pub fn one(route: &'r Route<'r>) -> Proposal<'r>
        ensures { result ≡ record { problem = route.now.problem; first = record { vehicle = route.now.vehicle; list = route.now.visits; views = [] }; second = None } }
    {
        Proposal {
            given: route.data(),
            first: ProposedSide::new(route),
            second: None,
        }
    }

    /// No views yet, for two routes. Conditions: they are of one problem, and of different vehicles.
    pub fn two(first: &'r Route<'r>, second: &'r Route<'r>) -> Proposal<'r>
        requires problem { second.now.problem ≡ first.now.problem }
        requires vehicles { second.now.vehicle ≢ first.now.vehicle }
        ensures { result ≡ record { problem = first.now.problem; first = record { vehicle = first.now.vehicle; list = first.now.visits; views = [] }; second = Some (record { vehicle = second.now.vehicle; list = second.now.visits; views = [] }) } }
    {
        Proposal {
            given: first.data(),
            first: ProposedSide::new(first),
            second: Some(ProposedSide::new(second)),
        }
    }

    /// Adds a view at the end of a side; `Full` where the side has eight, and then nothing changes.
    ///
    /// Conditions: the side is there; the view is of the same problem; nothing follows a view with the end; a view with the start is the
    /// first of its own route's side, and one with the end is on its own route's side.
    pub fn push(&mut self, side: Side, view: View<'r>) -> Result<(), Full>
        requires { CanPush self.old side view }
        ensures variant { IsOk result ↔ (length (views_at self.old side) < 8) }
        ensures ok { OnOk result (self.new ≡ pushed self.old side view.entry) }
        ensures err { OnErr result (self.new ≡ self.old) }
    {
        view.validity();
        match side {
            Side::First => self.first.push(view),
            Side::Second => match &mut self.second {
                Some(second) => second.push(view),
                None => unreachable!(),
            },
        }
    }

    /// What the plan's cost changes by with the new lists, with the parts of the lists.
    ///
    /// Conditions: each new list is one that a vehicle can have, no client stands twice in them, and no weight exceeds 10^9. It reads
    /// one leg for each joint of two views, or of a view and a stop that no view has, and one for each visit of a view of another
    /// profile.
    pub fn gain(&self, weights: Weights, reads: &mut Steps<Reads>) -> Gain
        requires costed { CanBeCosted self.now }
        requires weights { IsWeighed weights }
        ensures gain { IsItsGain weights self.now result }
        ensures reads { RoseAtMost (gain_reads (seen_sides self.now)) reads.old reads.new }
    {
        let first = self.first.change(self.given, weights, reads);
        let second = self.second_change(weights, reads);
        self.gain_of(first + second)
    }

    /// The gain, where it lowers the cost. See `gain`, and its conditions. The second side's legs are read, and its new list is put
    /// together, only where the first side's change leaves room for a gain.
    pub fn improving(&self, weights: Weights, reads: &mut Steps<Reads>) -> Option<Gain>
        requires costed { CanBeCosted self.now }
        requires weights { IsWeighed weights }
        ensures gain { IsImproving weights self.now result }
        ensures reads { RoseAtMost (gain_reads (seen_sides self.now)) reads.old reads.new }
    {
        let first = self.first.change(self.given, weights, reads);
        if first + self.second_least_change(weights) >= 0 {
            return None;
        }
        let amount = first + self.second_change(weights, reads);
        if amount >= 0 {
            return None;
        }
        Some(self.gain_of(amount))
    }

    /// How much more the second side's vehicle costs with its new list; 0 where there is one side.
    fn second_change(&self, weights: Weights, reads: &mut Steps<Reads>) -> i128
        requires costed { CanBeCosted self.now }
        requires weights { IsWeighed weights }
        ensures value { result ≡ second_change self.now.problem weights self.now.second }
        ensures not_small { pos 0 ≤ℤ (pos most_change +ℤ result) }
        ensures not_large { result ≤ℤ pos most_change }
        ensures reads { RoseAtMost (second_reads self.now.problem self.now.second) reads.old reads.new }
    {
        match &self.second {
            Some(side) => side.change(self.given, weights, reads),
            None => 0,
        }
    }

    /// By how much more at least it costs. No leg is read.
    fn second_least_change(&self, weights: Weights) -> i128
        requires costed { CanBeCosted self.now }
        requires weights { IsWeighed weights }
        ensures least { result ≤ℤ second_change self.now.problem weights self.now.second }
        ensures not_small { pos 0 ≤ℤ (pos most_change +ℤ result) }
        ensures not_large { result ≤ℤ pos most_change }
    {
        match &self.second {
            Some(side) => side.least_change(self.given, weights),
            None => 0,
        }
    }

    /// The gain of its sides, with this amount.
    fn gain_of(&self, amount: i128) -> Gain
        ensures sides { HasSides self.now result }
        ensures amount { result.amount ≡ amount }
    {
        Gain {
            first: self.first.parts(),
            second: self.second_parts(),
            amount,
        }
    }

    /// The second side's parts, if there is one.
    fn second_parts(&self) -> Option<SideParts>
        ensures { result ≡ option_map gain_side self.now.second }
    {
        match &self.second {
            Some(side) => Some(side.parts()),
            None => None,
        }
    }
}
