//! Whether new lists lower the cost.
ghost use Rattle.std.specs.Prelude.{◌≡◌, IsTrue};
ghost use Rattle.problem_data.specs.Reads.{RoseAtMost};
ghost use Rattle.routing_model.specs.Lawful.{is_lawful};
ghost use Rattle.gain_model.specs.declared.part.Part.TheVariants.{Run};
ghost use Rattle.list_changes.specs.Changes.{IsLaid, new_plan};
ghost use Rattle.list_changes.specs.Improvements.{IsImprovement};
ghost use Rattle.list_changes.specs.NewLists.{laid_list, lists_of};
ghost use Rattle.list_changes.specs.Reads.{improve_reads};

use crate::change::Change;
use crate::layout::{Layout, Span};
use move_core::{Gain, Part, Search};
use new_lists::{NewList, NewLists};
use problem_data::{Reads, Steps};

/// The gain of a change, where it lowers the cost. Condition: the plan with the new lists is lawful. It reads at most `improve_reads`
/// legs: six for each new list, and those between visits that come from a list of another profile.
#[cold]
#[inline(never)]
pub fn improving_gain(search: &Search<'_>, change: Change, reads: &mut Steps<Reads>) -> Option<Gain>
    requires laid { IsLaid search.now change }
    requires lawful { IsTrue (is_lawful search.now.problem (new_plan search.now.routes change)) }
    ensures gain { IsImprovement search.now change result }
    ensures reads { RoseAtMost (improve_reads search.now change) reads.old reads.new }
{
    new_lists::improving_gain(search, lists_of(change), reads)
}

/// The new lists of a change, by parts of a plan.
pub fn lists_of(change: Change) -> NewLists
    ensures { result ≡ lists_of change }
{
    match change {
        Change::One { vehicle, layout } => NewLists::One(laid_list(vehicle, vehicle, layout)),
        Change::Two {
            first,
            second,
            one,
            two,
        } => NewLists::Two(laid_list(first, second, one), laid_list(second, first, two)),
    }
}

/// A vehicle's new list, by runs of a lender's list.
fn laid_list(vehicle: u32, lender: u32, layout: Layout) -> NewList
    ensures { result ≡ laid_list vehicle lender layout }
{
    NewList {
        vehicle,
        left: layout.left,
        one: run(lender, layout.one),
        two: run(lender, layout.two),
        three: run(lender, layout.three),
        right: layout.right,
    }
}

/// Some visits of a vehicle's list.
fn run(vehicle: u32, span: Span) -> Part
    ensures { result ≡ Run vehicle span.first span.end }
{
    Part::Run {
        vehicle,
        first: span.first,
        end: span.end,
    }
}
