//! Changes that surely don't lower the cost, told by few legs before anything is copied.
ghost use Rattle.std.specs.Prelude.{IsTrue};
ghost use Rattle.problem_data.specs.Reads.{RoseAtMost};
ghost use Rattle.list_changes.specs.declared.change.Change.TheVariants.{One};
ghost use Rattle.list_changes.specs.Changes.{CostsNoLess, IsLaid, IsSide};

use crate::bound::{bound_of, load_cost};
use crate::change::Change;
use crate::layout::Layout;
use move_core::Search;
use problem_data::{Reads, Steps};

/// Whether a change surely doesn't lower the cost: by the distances alone, or with the excess loads. At most eight legs are read.
pub fn is_dear(search: &Search<'_>, change: Change, reads: &mut Steps<Reads>) -> bool
    requires { IsLaid search.now change }
    ensures dear { IsTrue result → CostsNoLess search.now change }
    ensures reads { RoseAtMost 8 reads.old reads.new }
{
    match change {
        Change::One { vehicle, layout } => is_one_dear(search, vehicle, layout, reads),
        Change::Two {
            first,
            second,
            one,
            two,
        } => {
            let bound = bound_of(search, first, second, one, reads);
            let other = bound_of(search, second, first, two, reads);
            let paid = bound.paid + other.paid;
            let least = bound.least + other.least;
            paid <= least
                || paid
                    <= least
                        + load_cost(search, first, second, one)
                        + load_cost(search, second, first, two)
        }
    }
}

/// The same of one vehicle's new list. At most four legs are read.
pub fn is_one_dear(
    search: &Search<'_>,
    vehicle: u32,
    layout: Layout,
    reads: &mut Steps<Reads>,
) -> bool
    requires { IsSide search.now vehicle vehicle layout }
    ensures dear { IsTrue result → CostsNoLess search.now (One vehicle layout) }
    ensures reads { RoseAtMost 4 reads.old reads.new }
{
    let bound = bound_of(search, vehicle, vehicle, layout, reads);
    bound.paid <= bound.least
        || bound.paid <= bound.least + load_cost(search, vehicle, vehicle, layout)
}
