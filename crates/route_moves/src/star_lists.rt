//! The new lists that the best swap of two clients of two vehicles makes.
ghost use Rattle.std.specs.Prelude.{◌≡◌, ◌*◌, ◌<◌, ◌≤◌, None, length};
ghost use Rattle.std.specs.Option.{MatchOption};
ghost use Rattle.problem_data.specs.Limits.{most_visits};
ghost use Rattle.problem_data.specs.Places.{vehicle_count};
ghost use Rattle.problem_data.specs.Reads.{RoseAtMost};
ghost use Rattle.routing_model.specs.Routes.{list_at};
ghost use Rattle.search_model.specs.RouteMoves.{is_one_trip};
ghost use Rattle.route_cache.specs.Marks.{reloads_in};
ghost use Rattle.new_lists.specs.Moves.{IsAnswerTo};
ghost use Rattle.route_moves.specs.inside.Stars.{IsStarPair, may_star, star_candidate, star_lists, turned_list};

use move_core::{Part, Search};
use new_lists::{NewList, NewLists, nothing};
use problem_data::{Reads, Steps};
use route_cache::Route;
use star_pairs::{Pair, Turn, best_pair};
use star_places::ThreePlaces;

/// The best pair of clients of two vehicles: both are used, and their lists have no reload. None where they may not swap clients; then
/// nothing is the answer. `kept` has room for each list.
pub(crate) fn star_pair(
    search: &Search<'_>,
    first: u32,
    second: u32,
    kept: &mut [ThreePlaces],
    reads: &mut Steps<Reads>,
) -> Option<Pair>
    requires room { most_visits ≤ length kept.old }
    ensures pair { MatchOption result (IsAnswerTo search.now (star_candidate first second) None) (λ pair. IsStarPair search.now first second pair) }
    ensures room { length kept.new ≡ length kept.old }
    ensures reads { RoseAtMost (20 * (length (list_at search.now.routes first) * length (list_at search.now.routes second))) reads.old reads.new }
{
    search.soundness();
    if !may_star(search, first, second) {
        return None;
    }
    let a = search.route(first);
    a.visits();
    Some(best_pair(a, search.route(second), kept, reads))
}

/// Whether two numbers are of different used vehicles whose lists have no reload.
fn may_star(search: &Search<'_>, first: u32, second: u32) -> bool
    ensures { result ≡ may_star search.now.problem search.now.routes first second }
{
    let vehicles = search.data().vehicles();
    first < vehicles
        && second < vehicles
        && first != second
        && is_one_trip(search, first)
        && is_one_trip(search, second)
}

/// Whether a vehicle is used and its list has no reload. Condition: it is in range.
fn is_one_trip(search: &Search<'_>, vehicle: u32) -> bool
    requires { vehicle < vehicle_count search.now.problem }
    ensures { result ≡ is_one_trip (list_at search.now.routes vehicle) }
{
    search.size(vehicle) > 0 && reloads_of(search.route(vehicle)) == 0
}

/// How many reloads a route has.
fn reloads_of(route: &Route<'_>) -> u32
    ensures { result ≡ reloads_in route.now.visits }
{
    let end = route.visits().len();
    route.marks()[end].reloads
}

/// The lists that a pair of clients makes of two vehicles' lists.
pub(crate) fn lists_of(search: &Search<'_>, first: u32, second: u32, pair: Pair) -> NewLists
    requires { IsStarPair search.now first second pair }
    ensures { result ≡ star_lists first second pair }
{
    search.soundness();
    NewLists::Two(
        list_with(first, pair.v, pair.first),
        list_with(second, pair.u, pair.second),
    )
}

/// A vehicle's list without the visit at a turn's position and with a client at its place.
fn list_with(vehicle: u32, client: u32, turn: Turn) -> NewList
    requires goes { turn.goes < most_visits }
    requires place { turn.place < most_visits }
    ensures { result ≡ turned_list vehicle client turn }
{
    if turn.place < turn.goes {
        NewList {
            vehicle,
            left: turn.place,
            one: Part::Client(client),
            two: Part::Run {
                vehicle,
                first: turn.place,
                end: turn.goes,
            },
            three: nothing(vehicle),
            right: turn.goes + 1,
        }
    } else {
        NewList {
            vehicle,
            left: turn.goes,
            one: Part::Run {
                vehicle,
                first: turn.goes + 1,
                end: turn.place + 1,
            },
            two: Part::Client(client),
            three: nothing(vehicle),
            right: turn.place + 1,
        }
    }
}
