//! What a new list costs at least.
ghost use Rattle.std.specs.Prelude.{◌≡◌, ◌*◌, ◌^◌, ◌<◌, ◌≤◌, length};
ghost use Rattle.problem_data.specs.Places.{vehicle_count};
ghost use Rattle.problem_data.specs.Reads.{RoseAtMost};
ghost use Rattle.routing_model.specs.Routes.{list_at};
ghost use Rattle.list_changes.specs.Bounds.{IsBound, IsLeast, IsPaid, overloaded};
ghost use Rattle.list_changes.specs.Changes.{IsSide, new_list};
ghost use Rattle.list_changes.specs.Layouts.{has_no_visit};

use crate::layout::Layout;
use crate::load::least_excess;
use crate::way::{way_gone, way_over};
use move_core::Search;
use problem_data::{Reads, Steps};

/// What comes to a vehicle's cost with a new list at least, besides its excess load, and what goes of it at most, apart from what stays.
/// What goes is cut at 2^61, and then tells nothing.
#[derive(Clone, Copy)]
pub(crate) struct Bound {
    pub(crate) least: u64,
    pub(crate) paid: u64,
}

/// Where what comes is cut.
const MOST: u64 = 1 << 58;

/// Where what goes is cut.
pub const CUT: u64 = 1 << 61;

/// The bound of a vehicle's new list, by runs of a lender's list. At most four legs are read.
pub(crate) fn bound_of(
    search: &Search<'_>,
    vehicle: u32,
    lender: u32,
    layout: Layout,
    reads: &mut Steps<Reads>,
) -> Bound
    requires { IsSide search.now vehicle lender layout }
    ensures bound { IsBound search.now vehicle lender layout result }
    ensures reads { RoseAtMost 4 reads.old reads.new }
{
    let paid = paid(search, vehicle, layout);
    let least = least(search, vehicle, lender, layout, reads);
    Bound { least, paid }
}

/// What comes: nothing where the new list is empty.
fn least(
    search: &Search<'_>,
    vehicle: u32,
    lender: u32,
    layout: Layout,
    reads: &mut Steps<Reads>,
) -> u64
    requires { IsSide search.now vehicle lender layout }
    ensures least { IsLeast search.now vehicle lender layout result }
    ensures reads { RoseAtMost 4 reads.old reads.new }
{
    if is_empty(layout, search.size(vehicle)) {
        return 0;
    }
    let route = search.route(vehicle);
    let vehicle_type = route.data().vehicle_type(vehicle);
    let far = way_over(route, search.route(lender), layout, reads);
    vehicle_type.fixed + capped(vehicle_type.unit_distance, far)
}

/// What goes: nothing where the list is empty.
fn paid(search: &Search<'_>, vehicle: u32, layout: Layout) -> u64
    requires vehicle { vehicle < vehicle_count search.now.problem }
    requires in_order { layout.left ≤ layout.right }
    requires in_list { layout.right ≤ length (list_at search.now.routes vehicle) }
    ensures { IsPaid search.now vehicle layout result }
{
    if search.size(vehicle) == 0 {
        return 0;
    }
    let route = search.route(vehicle);
    let vehicle_type = route.data().vehicle_type(vehicle);
    let driven = vehicle_type
        .unit_distance
        .saturating_mul(way_gone(route, layout));
    let rest = search.rest(vehicle) as u64;
    driven.saturating_add(vehicle_type.fixed + rest).min(CUT)
}

/// Whether a new list has no visit, where the vehicle's own list has so many.
pub fn is_empty(layout: Layout, size: u32) -> bool
    ensures { result ≡ has_no_visit layout size }
{
    layout.left == 0
        && layout.right == size
        && layout.one.is_empty()
        && layout.two.is_empty()
        && layout.three.is_empty()
}

/// What an amount costs, cut at 2^58.
pub fn capped(unit: u64, amount: u64) -> u64
    ensures least { result ≤ unit * amount }
    ensures small { result ≤ 2 ^ 58 }
{
    unit.saturating_mul(amount).min(MOST)
}

/// What the excess load of a new list costs at least, cut at 2^58.
pub fn load_cost(search: &Search<'_>, vehicle: u32, lender: u32, layout: Layout) -> u64
    requires { IsSide search.now vehicle lender layout }
    ensures least { result ≤ overloaded search.now vehicle (new_list search.now.routes vehicle lender layout) }
    ensures small { result ≤ 2 ^ 58 }
{
    let excess = least_excess(search.route(vehicle), search.route(lender), layout);
    capped(search.weights().load, excess)
}
