//! How many reloads new lists have.
ghost use Rattle.std.specs.Prelude.{◌≡◌, ◌≤◌, length, nat_le, slice_range};
ghost use Rattle.problem_data.specs.Limits.{most_visits};
ghost use Rattle.routing_model.specs.Listed.{type_of_vehicle};
ghost use Rattle.route_cache.specs.Marks.{reloads_in};
ghost use Rattle.gain_model.specs.Gains.{part_visits};
ghost use Rattle.new_lists.specs.NewLists.{IsPart, list_of};
ghost use Rattle.new_lists.proofs.MadeLists.{HasItsParts};
ghost use Rattle.reload_puts.specs.PutLists.{HaveParts, neighbour_list};

use gain_model::Part;
use move_core::Search;
use new_lists::{NewList, NewLists};
use route_cache::Route;

/// Whether the neighbour's vehicle may reload as often as its new list does. No leg is read.
pub fn may_reload(search: &Search<'_>, lists: NewLists) -> bool
    requires { HaveParts search.now lists }
    ensures { result ≡ nat_le (reloads_in (list_of search.now.routes (neighbour_list lists))) (type_of_vehicle search.now.problem (neighbour_list lists).vehicle).reloads }
{
    let list = neighbour_list(lists);
    reloads_of(search, list) <= search.data().vehicle_type(list.vehicle).reloads
}

/// The new list of the neighbour's vehicle.
fn neighbour_list(lists: NewLists) -> NewList
    ensures { result ≡ neighbour_list lists }
{
    match lists {
        NewLists::One(list) => list,
        NewLists::Two(_, list) => list,
    }
}

/// How many reloads a new list has.
fn reloads_of(search: &Search<'_>, list: NewList) -> u32
    requires { HasItsParts search.now list }
    ensures { result ≡ reloads_in (list_of search.now.routes list) }
{
    let route = search.route(list.vehicle);
    let end = route.visits().len() as u32;
    reloads_between(route, 0, list.left)
        + part_reloads(search, list.one)
        + part_reloads(search, list.two)
        + part_reloads(search, list.three)
        + reloads_between(route, list.right, end)
}

/// How many reloads a part has.
fn part_reloads(search: &Search<'_>, part: Part) -> u32
    requires { IsPart search.now part }
    ensures reloads { result ≡ reloads_in (part_visits search.now.routes part) }
    ensures few { result ≤ most_visits }
{
    match part {
        Part::Run {
            vehicle,
            first,
            end,
        } => reloads_between(search.route(vehicle), first, end),
        Part::Client(_) => 0,
        Part::Reload(_) => 1,
    }
}

/// How many reloads there are among some visits of a route.
fn reloads_between(route: &Route<'_>, first: u32, end: u32) -> u32
    requires in_order { first ≤ end }
    requires in_list { end ≤ length route.now.visits }
    ensures reloads { result ≡ reloads_in (slice_range route.now.visits first end) }
    ensures few { result ≤ most_visits }
{
    let marks = route.marks();
    marks[end as usize].reloads - marks[first as usize].reloads
}
