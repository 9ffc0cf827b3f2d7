//! Bounds on new lists with a run that another list lends.
ghost use Rattle.std.specs.Prelude.{◌≡◌, ◌+◌, ◌*◌, ◌^◌, ◌<◌, ◌≤◌, [], IsTrue};
ghost use Rattle.problem_data.specs.Limits.{largest};
ghost use Rattle.problem_data.specs.Reads.{RoseAtMost};
ghost use Rattle.routing_model.specs.Listed.{type_of_vehicle};
ghost use Rattle.routing_model.specs.Routes.{list_at};
ghost use Rattle.list_changes.specs.declared.change.Change.TheVariants.{Two};
ghost use Rattle.list_changes.specs.Changes.{CostsNoLess, IsSide};
ghost use Rattle.list_changes.specs.Bounds.{IsLeast};
ghost use Rattle.exchange_screens.specs.inside.Lents.{IsLent, layout_of};
ghost use Rattle.exchange_screens.specs.inside.Seats.{IsSeat};
ghost use Rattle.list_changes.specs.Layouts.{left_layout};
ghost use Rattle.list_changes.specs.Ways.{way_by};

use crate::seat::{Seat, paid_over};
use list_changes::{Gap, Layout, NOTHING, Span, capped, is_empty, leg_over, load_cost, way_lent};
use move_core::Search;
use problem_data::{Reads, Steps};

/// A vehicle's new list: its own visits up to a position, from 0, a run of a lender's list, and its own visits from another position on.
/// With it, what goes of the vehicle's cost at most, and the leg from the visit before the run to its first visit.
#[derive(Clone, Copy)]
pub(crate) struct Lent {
    pub(crate) seat: Seat,
    pub(crate) left: u32,
    pub(crate) right: u32,
    pub(crate) first: u32,
    pub(crate) end: u32,
    pub(crate) paid: u64,
    pub(crate) come: u32,
}

/// What comes to a vehicle's cost with so much distance, and its fixed cost: no more than this.
fn coming(seat: &Seat, far: u64) -> u64
    requires { seat.now.fixed ≤ largest }
    ensures least { result ≤ seat.now.fixed + seat.now.unit * far }
    ensures small { result < 2 ^ 59 }
{
    seat.fixed + capped(seat.unit, far)
}

impl Lent {
    /// Its parts.
    fn layout(&self) -> Layout
        ensures { result ≡ layout_of self.now }
    {
        Layout {
            left: self.left,
            one: Span {
                first: self.first,
                end: self.end,
            },
            two: NOTHING,
            three: NOTHING,
            right: self.right,
        }
    }
}

/// What comes with a new list at least, by the leg to the run alone. It reads no leg.
fn near(search: &Search<'_>, lent: &Lent, lender: u32) -> u64
    requires { IsLent search.now lent.now lender }
    ensures { IsLeast search.now lent.now.seat.vehicle lender (layout_of lent.now) result }
{
    coming(&lent.seat, u64::from(lent.come))
}

/// What comes with it at least, by all legs of the run. One leg is read.
fn far(search: &Search<'_>, lent: &Lent, lender: u32, reads: &mut Steps<Reads>) -> u64
    requires { IsLent search.now lent.now lender }
    ensures least { IsLeast search.now lent.now.seat.vehicle lender (layout_of lent.now) result }
    ensures reads { RoseAtMost 1 reads.old reads.new }
{
    let span = Span {
        first: lent.first,
        end: lent.end,
    };
    let route = search.route(lent.seat.vehicle);
    let way = way_lent(
        route,
        search.route(lender),
        span,
        lent.seat.profile,
        lent.come,
        lent.right,
        reads,
    );
    coming(&lent.seat, way)
}

/// Whether two vehicles surely cost no less where each has a run of the other one's list. At most two legs are read.
pub(crate) fn is_lent_dear(
    search: &Search<'_>,
    one: &Lent,
    two: &Lent,
    reads: &mut Steps<Reads>,
) -> bool
    requires one { IsLent search.now one.now two.now.seat.vehicle }
    requires two { IsLent search.now two.now one.now.seat.vehicle }
    ensures dear { IsTrue result → CostsNoLess search.now (Two one.now.seat.vehicle two.now.seat.vehicle (layout_of one.now) (layout_of two.now)) }
    ensures reads { RoseAtMost 2 reads.old reads.new }
{
    let (a, b) = (one.seat.vehicle, two.seat.vehicle);
    let paid = one.paid + two.paid;
    if paid <= near(search, one, b) + near(search, two, a) {
        return true;
    }
    let least = far(search, one, b, reads) + far(search, two, a, reads);
    if paid <= least {
        return true;
    }
    let load = load_cost(search, a, b, one.layout());
    paid <= least + load + load_cost(search, b, a, two.layout())
}

/// What comes at least with a list without some visits, where it is so far over the gap at least: nothing where no visit is left.
fn left_least(search: &Search<'_>, seat: &Seat, gap: Gap, far: u64, lender: u32) -> u64
    requires seat { IsSeat search.now seat.now }
    requires side { IsSide search.now seat.now.vehicle lender (left_layout gap.left gap.right) }
    requires far { far ≤ way_by search.now.problem (type_of_vehicle search.now.problem seat.now.vehicle) (list_at search.now.routes seat.now.vehicle) (left_layout gap.left gap.right) [] }
    ensures { IsLeast search.now seat.now.vehicle lender (left_layout gap.left gap.right) result }
{
    if is_empty(gap.layout(), seat.size) {
        return 0;
    }
    coming(seat, far)
}

/// Whether two vehicles surely cost no less where one is without some visits, and the other has a run of its list. At most two legs are
/// read.
pub(crate) fn is_put_dear(
    search: &Search<'_>,
    seat: &Seat,
    gap: Gap,
    lent: &Lent,
    reads: &mut Steps<Reads>,
) -> bool
    requires seat { IsSeat search.now seat.now }
    requires side { IsSide search.now seat.now.vehicle lent.now.seat.vehicle (left_layout gap.left gap.right) }
    requires lent { IsLent search.now lent.now seat.now.vehicle }
    ensures dear { IsTrue result → CostsNoLess search.now (Two seat.now.vehicle lent.now.seat.vehicle (left_layout gap.left gap.right) (layout_of lent.now)) }
    ensures reads { RoseAtMost 2 reads.old reads.new }
{
    let (a, b) = (seat.vehicle, lent.seat.vehicle);
    let paid = paid_over(search, *seat, gap.left, gap.right) + lent.paid;
    if paid <= left_least(search, seat, gap, 0, b) + near(search, lent, a) {
        return true;
    }
    let over = leg_over(search.route(a), gap.left, gap.right, reads);
    let least = left_least(search, seat, gap, over, b) + far(search, lent, a, reads);
    if paid <= least {
        return true;
    }
    let load = load_cost(search, a, b, gap.layout());
    paid <= least + load + load_cost(search, b, a, lent.layout())
}
