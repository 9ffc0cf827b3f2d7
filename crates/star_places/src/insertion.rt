//! How much farther a vehicle drives with a client at a place of its list.
ghost use Rattle.std.specs.Prelude.{◌≡◌, ℕ, ◌+◌, ◌<◌, ◌≤◌, length};
ghost use Rattle.problem_data.specs.Places.{leg_distance, place_count};
ghost use Rattle.problem_data.specs.Reads.{RoseAtMost};
ghost use Rattle.gain_model.specs.Growths.{detour};
ghost use Rattle.routing_model.specs.Listed.{type_of_vehicle};
ghost use Rattle.route_cache.specs.Marks.{place_along};
ghost use Rattle.star_places.specs.Growths.{IsSmall, farther, gone_of, growth_of, instead_of};

use problem_data::{Reads, Steps, leg};
use route_cache::Route;

/// The place at a position of a route: 0 is the start, i the i-th visit, and behind them all there is the end.
pub fn place_at(route: &Route<'_>, position: u32) -> u32
    requires { position ≤ length route.now.visits + 1 }
    ensures place { result ≡ place_along (type_of_vehicle route.now.problem route.now.vehicle) route.now.visits position }
    ensures there { result < place_count route.now.problem }
{
    route.visits();
    route.data().vehicle_type(route.vehicle());
    route.marks()[position as usize].place
}

/// Says how much farther it is with a client at most, and does nothing.
pub(crate) fn growths_are_small(route: &Route<'_>)
    ensures { (from client to : ℕ) → IsSmall (farther route.now from client to) }
{
    let given = route.data();
    given.validity();
    given.vehicle_type(route.vehicle());
}

/// How much farther it is from a place to another one by a client, where the way between them is known. Two legs are read.
fn detour(
    route: &Route<'_>,
    from: u32,
    client: u32,
    to: u32,
    between: u32,
    reads: &mut Steps<Reads>,
) -> i64
    requires from { from < place_count route.now.problem }
    requires client { client < place_count route.now.problem }
    requires to { to < place_count route.now.problem }
    requires between { between ≡ leg_distance route.now.problem (type_of_vehicle route.now.problem route.now.vehicle).profile from to }
    ensures farther { result ≡ detour route.now.problem (type_of_vehicle route.now.problem route.now.vehicle) from client to }
    ensures small { IsSmall result }
    ensures reads { RoseAtMost 2 reads.old reads.new }
{
    let given = route.data();
    let profile = given.vehicle_type(route.vehicle()).profile;
    let there = leg(given, profile, from, client, reads);
    let on = leg(given, profile, client, to, reads);
    i64::from(there.distance) + i64::from(on.distance) - i64::from(between)
}

/// How much farther it is with a client at a place of a route, from 0. Two legs are read.
pub(crate) fn growth(route: &Route<'_>, client: u32, place: u32, reads: &mut Steps<Reads>) -> i64
    requires place { place ≤ length route.now.visits }
    requires client { client < place_count route.now.problem }
    ensures growth { result ≡ growth_of route.now client place }
    ensures small { IsSmall result }
    ensures reads { RoseAtMost 2 reads.old reads.new }
{
    route.visits();
    let from = place_at(route, place);
    let to = place_at(route, place + 1);
    let between = route.marks()[place as usize + 1].leg;
    detour(route, from, client, to, between, reads)
}

/// How much farther it is with a client in the place of the visit at a position of a route, from 0, than without that visit. Two legs
/// are read.
pub(crate) fn growth_instead(
    route: &Route<'_>,
    client: u32,
    position: u32,
    reads: &mut Steps<Reads>,
) -> i64
    requires position { position < length route.now.visits }
    requires client { client < place_count route.now.problem }
    ensures growth { result ≡ instead_of route.now client position }
    ensures small { IsSmall result }
    ensures reads { RoseAtMost 2 reads.old reads.new }
{
    route.visits();
    let from = place_at(route, position);
    let to = place_at(route, position + 2);
    let between = route.marks()[position as usize + 1].over;
    detour(route, from, client, to, between, reads)
}

/// How much less far it is without the visit at a position of a route, from 0. It reads no leg.
pub fn gone(route: &Route<'_>, position: u32) -> i64
    requires { position < length route.now.visits }
    ensures gone { result ≡ gone_of route.now position }
    ensures small { IsSmall result }
{
    let marks = route.marks();
    let out = marks[position as usize + 1];
    let to = marks[position as usize + 2];
    i64::from(out.leg) + i64::from(to.leg) - i64::from(out.over)
}
