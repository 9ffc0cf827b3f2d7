//! Exchanges of tails.
ghost use Rattle.std.specs.Prelude.{◌≡◌, ◌≤◌, None, length};
ghost use Rattle.std.specs.Option.{MatchOption};
ghost use Rattle.problem_data.specs.Limits.{most_visits};
ghost use Rattle.list_changes.specs.Moves.{IsAnswerTo};
ghost use Rattle.tail_changes.specs.Tails.{IsTailChange, tail_candidate};
ghost use Rattle.tail_changes.specs.inside.Cuts.{IsCut, IsExchange, with_tail};
ghost use Rattle.tail_changes.specs.inside.TailBegins.{past_reload, tail_begin};

use crate::reloading::may_take;
use list_changes::{Change, Layout, NOTHING, Span, aim_of};
use move_core::{Search, Target};
use problem_data::Visit;

/// What an exchange of tails changes: what follows a client in its list changes places with what follows the target's client in another
/// list, with that whole list, or with nothing. A reload that would begin a list is left out. None where the exchange doesn't apply, or
/// leaves the plan as it is; then nothing is its answer. It reads no leg.
pub fn tail_change(search: &Search<'_>, client: u32, target: Target) -> Option<Change>
    ensures { MatchOption result (IsAnswerTo search.now (tail_candidate client target) None) (λ change. IsTailChange search.now client target change) }
{
    let (vehicle, left) = search.position(client)?;
    let aim = aim_of(search, target)?;
    if aim.vehicle == vehicle {
        return None;
    }
    let first = Cut {
        vehicle,
        left,
        size: search.size(vehicle),
    };
    let second = Cut {
        vehicle: aim.vehicle,
        left: aim.place,
        size: search.size(aim.vehicle),
    };
    exchanged(search, first, second)
}

/// A vehicle's list, cut behind its first visits.
#[derive(Clone, Copy)]
struct Cut {
    vehicle: u32,
    left: u32,
    size: u32,
}

impl Cut {
    /// The list with another tail.
    fn with_tail(self, tail: Span) -> Layout
        ensures { result ≡ with_tail self tail }
    {
        Layout {
            left: self.left,
            one: tail,
            two: NOTHING,
            three: NOTHING,
            right: self.size,
        }
    }
}

/// Two lists with each other's tail. None where there is no tail, and where a vehicle may not reload as its new list does.
fn exchanged(search: &Search<'_>, first: Cut, second: Cut) -> Option<Change>
    requires first { IsCut search.now first }
    requires second { IsCut search.now second }
    ensures { IsExchange search.now first second result }
{
    if first.left == first.size && second.left == second.size {
        return None;
    }
    let coming = Span {
        first: second.left,
        end: second.size,
    };
    let going = Span {
        first: tail_begin(
            search.route(first.vehicle).visits(),
            first.left,
            second.left,
        ),
        end: first.size,
    };
    if may_take(search, first.vehicle, first.left, second.vehicle, coming)
        && may_take(search, second.vehicle, second.left, first.vehicle, going)
    {
        Some(Change::Two {
            first: first.vehicle,
            second: second.vehicle,
            one: first.with_tail(coming),
            two: second.with_tail(going),
        })
    } else {
        None
    }
}

/// Where the tail of a list behind its first visits begins, as it comes behind so many visits of another list: without a reload that
/// would begin that list.
fn tail_begin(visits: &[Visit], left: u32, behind: u32) -> u32
    requires left { left ≤ length visits.now }
    requires few { length visits.now ≤ most_visits }
    ensures { result ≡ tail_begin visits.now left behind }
{
    if behind > 0 {
        return left;
    }
    past_reload(left, visits.get(left as usize).copied())
}

/// Where what is behind a position begins, without the visit there, if there is one, where it is a reload.
fn past_reload(left: u32, visit: Option<Visit>) -> u32
    requires { left ≤ most_visits }
    ensures { result ≡ past_reload left visit }
{
    match visit {
        Some(Visit::Reload(_)) => left + 1,
        _ => left,
    }
}
