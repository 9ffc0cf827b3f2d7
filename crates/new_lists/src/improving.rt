//! Whether new lists lower the cost.
ghost use Rattle.std.specs.Prelude.{◌≡◌, IsTrue};
ghost use Rattle.problem_data.specs.Reads.{RoseAtMost};
ghost use Rattle.routing_model.specs.Lawful.{is_lawful};
ghost use Rattle.new_lists.specs.declared.new_list.NewLists.TheVariants.{One, Two};
ghost use Rattle.new_lists.specs.Improvements.{IsImprovement};
ghost use Rattle.new_lists.specs.NewLists.{AreApart, AreNewLists, IsNewList, plan_of};
ghost use Rattle.new_lists.specs.Reads.{improve_reads};
ghost use Rattle.new_lists.specs.Views.{proposal_of};

use crate::laying::lay_out;
use crate::new_list::{NewList, NewLists};
use move_core::Search;
use penalty_cost::{Gain, Proposal, Side};
use problem_data::{Reads, Steps};

/// The gain of new lists, where they lower the cost. Condition: the plan with them is lawful. It reads at most `improve_reads` legs: six
/// for each new list, and those between visits that come from a list of another profile.
#[cold]
#[inline(never)]
pub fn improving_gain(
    search: &Search<'_>,
    lists: NewLists,
    reads: &mut Steps<Reads>,
) -> Option<Gain>
    requires lists { AreNewLists search.now lists }
    requires lawful { IsTrue (is_lawful search.now.problem (plan_of search.now.routes lists)) }
    ensures gain { IsImprovement search.now lists result }
    ensures reads { RoseAtMost (improve_reads search.now lists) reads.old reads.new }
{
    let proposal = proposed(search, lists, reads);
    proposal.improving(search.weights(), reads)
}

/// New lists, as a proposal. No leg is read.
fn proposed<'s>(search: &'s Search<'_>, lists: NewLists, reads: &mut Steps<Reads>) -> Proposal<'s>
    requires { AreNewLists search.now lists }
    ensures proposal { result ≡ proposal_of search.now lists }
    ensures reads { RoseAtMost 0 reads.old reads.new }
{
    match lists {
        NewLists::One(list) => proposed_one(search, list, reads),
        NewLists::Two(one, two) => proposed_two(search, one, two, reads),
    }
}

/// One vehicle's new list.
fn proposed_one<'s>(search: &'s Search<'_>, list: NewList, reads: &mut Steps<Reads>) -> Proposal<'s>
    requires { IsNewList search.now list }
    ensures proposal { result ≡ proposal_of search.now (One list) }
    ensures reads { RoseAtMost 0 reads.old reads.new }
{
    let mut proposal = Proposal::one(search.route(list.vehicle));
    lay_out(&mut proposal, Side::First, search, list, reads);
    proposal
}

/// Those of two vehicles.
fn proposed_two<'s>(
    search: &'s Search<'_>,
    one: NewList,
    two: NewList,
    reads: &mut Steps<Reads>,
) -> Proposal<'s>
    requires { AreApart search.now one two }
    ensures proposal { result ≡ proposal_of search.now (Two one two) }
    ensures reads { RoseAtMost 0 reads.old reads.new }
{
    let mut proposal = Proposal::two(search.route(one.vehicle), search.route(two.vehicle));
    lay_out(&mut proposal, Side::First, search, one, reads);
    lay_out(&mut proposal, Side::Second, search, two, reads);
    proposal
}
