//! How far it is over the runs of a new list.
ghost use Rattle.std.specs.Prelude.{◌+◌, ◌*◌, ◌<◌, ◌≤◌, ◌≡◌, ℕ, [], length, slice_range};
ghost use Rattle.problem_data.specs.Places.{leg_distance, place_count};
ghost use Rattle.problem_data.specs.Reads.{RoseAtMost};
ghost use Rattle.routing_model.specs.Listed.{type_of_vehicle};
ghost use Rattle.routing_model.proofs.Paths.{path};
ghost use Rattle.segments.specs.Totals.{largest_total};
ghost use Rattle.route_cache.specs.Marks.{place_along};
ghost use Rattle.list_changes.specs.Layouts.{IsLayout, IsSpan, runs_of, span_of, left_layout, lent_layout};
ghost use Rattle.list_changes.specs.Ways.{own_run, way_in};
ghost use Rattle.list_changes.specs.inside.Ways.{GoesOn};

use crate::layout::{Layout, Span};
use problem_data::{Reads, Steps, leg};
use route_cache::Route;

/// A way so far: the place where it ends, and how far it is at least.
#[derive(Clone, Copy)]
pub(crate) struct Way {
    pub(crate) place: u32,
    pub(crate) far: u64,
}

impl Way {
    /// On over some visits of a list, by a profile. At most one leg is read.
    fn over(self, lender: &Route<'_>, span: Span, profile: u32, reads: &mut Steps<Reads>) -> Way
        requires place { self.place < place_count lender.now.problem }
        requires small { self.far ≤ 8 * largest_total }
        requires profile { profile < length lender.now.problem.profiles }
        requires span { IsSpan lender.now.visits span }
        ensures on { GoesOn lender.now.problem profile (span_of lender.now.visits span) self result }
        ensures reads { RoseAtMost 1 reads.old reads.new }
    {
        if span.is_empty() {
            return self;
        }
        let first = place_at(lender, span.first as usize + 1);
        let to = leg(lender.data(), profile, self.place, first, reads);
        Way {
            place: place_at(lender, span.end as usize),
            far: self.far + u64::from(to.distance) + inner(lender, span, profile),
        }
    }
}

/// How far it is at least, by a profile, from the first of some visits to the last: 0 where the route that lends them is of another
/// profile. It reads no leg.
fn inner(lender: &Route<'_>, span: Span, profile: u32) -> u64
    requires some { span.first < span.end }
    requires in_list { span.end ≤ length lender.now.visits }
    ensures least { (from : ℕ) → leg_distance lender.now.problem profile from (place_along (type_of_vehicle lender.now.problem lender.now.vehicle) lender.now.visits (span.first + 1)) + result ≤ path (leg_distance lender.now.problem profile) from (span_of lender.now.visits span) }
    ensures small { result ≤ largest_total }
{
    if lender.data().vehicle_type(lender.vehicle()).profile != profile {
        return 0;
    }
    let marks = lender.marks();
    along(lender, span.first, span.end) - u64::from(marks[span.first as usize + 1].leg)
}

/// How far it is at least for a vehicle over the runs of a new list, from its own visit before them, or the start, to its own visit
/// behind them, or the end. At most four legs are read.
pub(crate) fn way_over(
    route: &Route<'_>,
    lender: &Route<'_>,
    layout: Layout,
    reads: &mut Steps<Reads>,
) -> u64
    requires problem { lender.now.problem ≡ route.now.problem }
    requires layout { IsLayout route.now.visits lender.now.visits layout }
    ensures least { result ≤ way_in route.now layout (runs_of lender.now.visits layout) }
    ensures reads { RoseAtMost 4 reads.old reads.new }
{
    let profile = route.data().vehicle_type(route.vehicle()).profile;
    let start = Way {
        place: place_at(route, layout.left as usize),
        far: 0,
    };
    let one = start.over(lender, layout.one, profile, reads);
    let two = one.over(lender, layout.two, profile, reads);
    let three = two.over(lender, layout.three, profile, reads);
    let behind = place_at(route, layout.right as usize + 1);
    let to = leg(route.data(), profile, three.place, behind, reads);
    three.far + u64::from(to.distance)
}

/// How far it is at least over some visits of a lender's list, from where it is so far to the first of them, and on to a vehicle's own
/// visit behind a position, or the end. One leg is read.
pub fn way_lent(
    route: &Route<'_>,
    lender: &Route<'_>,
    span: Span,
    profile: u32,
    come: u32,
    right: u32,
    reads: &mut Steps<Reads>,
) -> u64
    requires problem { lender.now.problem ≡ route.now.problem }
    requires profile { profile ≡ (type_of_vehicle route.now.problem route.now.vehicle).profile }
    requires there { profile < length route.now.problem.profiles }
    requires some { span.first < span.end }
    requires in_list { span.end ≤ length lender.now.visits }
    requires right { right ≤ length route.now.visits }
    ensures least { (left : ℕ) → come ≡ leg_distance route.now.problem profile (place_along (type_of_vehicle route.now.problem route.now.vehicle) route.now.visits left) (place_along (type_of_vehicle lender.now.problem lender.now.vehicle) lender.now.visits (span.first + 1)) → result ≤ way_in route.now (lent_layout left right span.first span.end) (runs_of lender.now.visits (lent_layout left right span.first span.end)) }
    ensures reads { RoseAtMost 1 reads.old reads.new }
{
    let last = place_at(lender, span.end as usize);
    let behind = place_at(route, right as usize + 1);
    let to = leg(route.data(), profile, last, behind, reads);
    u64::from(come) + inner(lender, span, profile) + u64::from(to.distance)
}

/// How far it is for a vehicle over a gap: from its visit before a position, or the start, to its visit behind another one, or the end.
/// One leg is read.
pub fn leg_over(route: &Route<'_>, left: u32, right: u32, reads: &mut Steps<Reads>) -> u64
    requires in_order { left ≤ right }
    requires in_list { right ≤ length route.now.visits }
    ensures far { result ≡ way_in route.now (left_layout left right) [] }
    ensures reads { RoseAtMost 1 reads.old reads.new }
{
    let profile = route.data().vehicle_type(route.vehicle()).profile;
    let from = place_at(route, left as usize);
    let to = place_at(route, right as usize + 1);
    u64::from(leg(route.data(), profile, from, to, reads).distance)
}

/// How far it is for a vehicle over its own visits that a new list has others in the place of. It reads no leg.
pub fn way_gone(route: &Route<'_>, layout: Layout) -> u64
    requires in_order { layout.left ≤ layout.right }
    requires in_list { layout.right ≤ length route.now.visits }
    ensures { result ≡ way_in route.now layout (own_run route.now.visits layout) }
{
    let marks = route.marks();
    along(route, layout.left, layout.right) + u64::from(marks[layout.right as usize + 1].leg)
}

/// How far it is for a vehicle from a position over its visits up to another one. It reads no leg.
fn along(route: &Route<'_>, from: u32, to: u32) -> u64
    requires in_order { from ≤ to }
    requires in_list { to ≤ length route.now.visits }
    ensures distance { result ≡ path (leg_distance route.now.problem (type_of_vehicle route.now.problem route.now.vehicle).profile) (place_along (type_of_vehicle route.now.problem route.now.vehicle) route.now.visits from) (slice_range route.now.visits from to) }
    ensures small { result ≤ largest_total }
{
    let marks = route.marks();
    (marks[to as usize].distance - marks[from as usize].distance) as u64
}

/// The place at a position of a route.
pub fn place_at(route: &Route<'_>, position: usize) -> u32
    requires { position ≤ length route.now.visits + 1 }
    ensures place { result ≡ place_along (type_of_vehicle route.now.problem route.now.vehicle) route.now.visits position }
    ensures there { result < place_count route.now.problem }
{
    route.visits();
    route.data().vehicle_type(route.vehicle());
    route.marks()[position].place
}
