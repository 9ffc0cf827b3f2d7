//! What an exchange of two vehicles' lists changes.
ghost use Rattle.std.specs.Prelude.{◌≡◌, ◌<◌, ◌&&◌, ◌==◌, None, length, not};
ghost use Rattle.std.specs.Option.{MatchOption};
ghost use Rattle.problem_data.specs.Places.{type_of, vehicle_count};
ghost use Rattle.routing_model.specs.Routes.{is_used, list_at};
ghost use Rattle.search_model.specs.Edits.{unused_vehicle};
ghost use Rattle.search_model.specs.RouteMoves.{are_two_vehicles, is_used_or_least, is_vehicle};
ghost use Rattle.list_changes.specs.Moves.{IsAnswerTo};
ghost use Rattle.tail_changes.specs.Reloading.{may_have};
ghost use Rattle.route_moves.specs.inside.Wholes.{IsWholeChange, may_swap, whole_candidate, whole_layout};

use list_changes::{Change, Layout, NOTHING, Span};
use move_core::Search;
use tail_changes::may_take;

/// What an exchange of two vehicles' lists changes: they are of different types, at least one of them is used, and one that isn't is the
/// least unused one of its type. None where the exchange doesn't apply; then nothing is its answer. It reads no leg.
pub(crate) fn whole_change(search: &Search<'_>, first: u32, second: u32) -> Option<Change>
    ensures { MatchOption result (IsAnswerTo search.now (whole_candidate first second) None) (λ change. IsWholeChange search.now first second change) }
{
    search.soundness();
    if !may_swap(search, first, second) {
        return None;
    }
    if !may_reload(search, first, second) {
        return None;
    }
    let going = search.size(first);
    let coming = search.size(second);
    Some(Change::Two {
        first,
        second,
        one: replaced(going, coming),
        two: replaced(coming, going),
    })
}

/// Whether each of two vehicles may reload as the other's list does. Condition: both are in range.
fn may_reload(search: &Search<'_>, first: u32, second: u32) -> bool
    requires first { first < vehicle_count search.now.problem }
    requires second { second < vehicle_count search.now.problem }
    ensures { result ≡ (may_have search.now first (list_at search.now.routes second) && may_have search.now second (list_at search.now.routes first)) }
{
    may_take_all(search, first, second) && may_take_all(search, second, first)
}

/// Whether a vehicle may reload as another one's list does. Condition: both are in range.
fn may_take_all(search: &Search<'_>, vehicle: u32, lender: u32) -> bool
    requires vehicle { vehicle < vehicle_count search.now.problem }
    requires lender { lender < vehicle_count search.now.problem }
    ensures { result ≡ may_have search.now vehicle (list_at search.now.routes lender) }
{
    may_take(search, vehicle, 0, lender, whole(search.size(lender)))
}

/// All visits of a list of so many.
fn whole(size: u32) -> Span
    ensures { result ≡ record { first = 0; end = size } }
{
    Span {
        first: 0,
        end: size,
    }
}

/// All visits of another list of so many in the place of all of a list of so many.
fn replaced(size: u32, other: u32) -> Layout
    ensures { result ≡ whole_layout size other }
{
    Layout {
        left: 0,
        one: whole(other),
        two: NOTHING,
        three: NOTHING,
        right: size,
    }
}

/// Whether the lists of two numbers' vehicles may change places, if their reloads allow it.
fn may_swap(search: &Search<'_>, first: u32, second: u32) -> bool
    ensures { result ≡ may_swap search.now.problem search.now.routes first second }
{
    have_two_types(search, first, second)
        && (is_used(search, first) || is_used(search, second))
        && is_used_or_least(search, first)
        && is_used_or_least(search, second)
}

/// Whether two numbers are of vehicles of different types.
fn have_two_types(search: &Search<'_>, first: u32, second: u32) -> bool
    ensures { result ≡ (are_two_vehicles search.now.problem first second && not (type_of search.now.problem first == type_of search.now.problem second)) }
{
    let given = search.data();
    let vehicles = given.vehicles();
    first < vehicles && second < vehicles && given.type_of(first) != given.type_of(second)
}

/// Whether a vehicle is used.
fn is_used(search: &Search<'_>, vehicle: u32) -> bool
    ensures { result ≡ is_used (list_at search.now.routes vehicle) }
{
    search.size(vehicle) > 0
}

/// Whether a vehicle is used, or else is the least unused one of its type. Condition: it is in range.
fn is_used_or_least(search: &Search<'_>, vehicle: u32) -> bool
    requires { vehicle < vehicle_count search.now.problem }
    ensures { result ≡ is_used_or_least search.now.problem search.now.routes vehicle }
{
    is_used(search, vehicle) || is_least(search, vehicle)
}

/// Whether a vehicle is the least unused one of its type. Condition: it is in range.
fn is_least(search: &Search<'_>, vehicle: u32) -> bool
    requires { vehicle < vehicle_count search.now.problem }
    ensures { result ≡ is_vehicle vehicle (unused_vehicle search.now.problem search.now.routes (type_of search.now.problem vehicle)) }
{
    match search.unused(search.data().type_of(vehicle)) {
        Some(other) => other == vehicle,
        None => false,
    }
}
