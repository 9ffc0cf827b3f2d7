//! Where a client stands, and what its vehicle's cost is made of.
ghost use Rattle.std.specs.Prelude.{◌≡◌, ◌-◌, ◌+◌, ◌≤◌, IfSome, IsTrue, IsFalse, None, length};
ghost use Rattle.std.specs.Option.{MatchOption};
ghost use Rattle.problem_data.specs.Places.{leg_distance};
ghost use Rattle.problem_data.specs.Reads.{RoseAtMost};
ghost use Rattle.routing_model.specs.Routes.{list_at};
ghost use Rattle.search_model.specs.Edits.{piece};
ghost use Rattle.list_changes.specs.Bounds.{IsPaid};
ghost use Rattle.exchange_screens.specs.inside.Pieces.{IsPieceFrom};
ghost use Rattle.exchange_screens.specs.inside.Seats.{IsSeat, IsTaken, piece_at, place_in};
ghost use Rattle.list_changes.specs.Layouts.{left_layout};

use list_changes::{CUT, Layout, NOTHING, place_at, way_gone};
use move_core::Search;
use problem_data::{Reads, Steps, leg};

/// A client at a place of a vehicle's list, from 1; the list's size; and the vehicle's profile, its cost for a unit of distance, its
/// fixed cost, and what it costs besides these, cut at 2^61.
#[derive(Clone, Copy)]
pub(crate) struct Seat {
    pub(crate) client: u32,
    pub(crate) vehicle: u32,
    pub(crate) place: u32,
    pub(crate) size: u32,
    pub(crate) profile: u32,
    pub(crate) unit: u64,
    pub(crate) fixed: u64,
    pub(crate) rest: u64,
}

/// Where a client stands. None where it isn't visited.
pub(crate) fn seat_of(search: &Search<'_>, client: u32) -> Option<Seat>
    ensures seat { IfSome result (λ seat. IsSeat search.now seat) }
    ensures client { IfSome result (λ seat. seat.client ≡ client) }
{
    let (vehicle, place) = search.position(client)?;
    let vehicle_type = search.data().vehicle_type(vehicle);
    Some(Seat {
        client,
        vehicle,
        place,
        size: search.size(vehicle),
        profile: vehicle_type.profile,
        unit: vehicle_type.unit_distance,
        fixed: vehicle_type.fixed,
        rest: search.rest(vehicle) as u64,
    })
}

/// Whether the piece of n from a client is there. It reads no leg.
pub(crate) fn has_piece(search: &Search<'_>, seat: Seat, n: u32) -> bool
    requires seat { IsSeat search.now seat }
    requires some { 1 ≤ n }
    requires few { n ≤ 3 }
    ensures there { IsTrue result → IsPieceFrom search.now seat.client n (piece_at seat n) }
    ensures none { IsFalse result → piece search.now.routes n seat.client ≡ None }
{
    let marks = search.route(seat.vehicle).marks();
    let first = seat.place - 1;
    let room = seat.size - first;
    if n > room {
        return false;
    }
    let end = first + n;
    let before = marks[first as usize].reloads;
    let behind = marks[end as usize].reloads;
    if behind != before {
        return false;
    }
    true
}

/// What goes of a vehicle's cost at most, where others stand in the place of its visits from one position up to another one. It reads no
/// leg.
pub(crate) fn paid_over(search: &Search<'_>, seat: Seat, left: u32, right: u32) -> u64
    requires seat { IsSeat search.now seat }
    requires in_order { left ≤ right }
    requires in_list { right ≤ length (list_at search.now.routes seat.vehicle) }
    ensures { IsPaid search.now seat.vehicle (left_layout left right) result }
{
    let layout = Layout {
        left,
        one: NOTHING,
        two: NOTHING,
        three: NOTHING,
        right,
    };
    let gone = way_gone(search.route(seat.vehicle), layout);
    seat.unit
        .saturating_mul(gone)
        .saturating_add(seat.fixed + seat.rest)
        .min(CUT)
}

/// What goes of a vehicle's cost at most, where others stand in the place of the piece of n from a client. None where there is no such
/// piece.
pub(crate) fn taken(search: &Search<'_>, seat: Seat, n: u32) -> Option<u64>
    requires seat { IsSeat search.now seat }
    requires some { 1 ≤ n }
    requires few { n ≤ 3 }
    ensures { MatchOption result (piece search.now.routes n seat.client ≡ None) (λ paid. IsTaken search.now seat n paid) }
{
    if !has_piece(search, seat, n) {
        return None;
    }
    let first = seat.place - 1;
    Some(paid_over(search, seat, first, first + n))
}

/// The leg from a position of a client's list, by its vehicle's profile, to another client. One leg is read.
pub(crate) fn leg_to(
    search: &Search<'_>,
    seat: Seat,
    position: u32,
    other: Seat,
    reads: &mut Steps<Reads>,
) -> u32
    requires seat { IsSeat search.now seat }
    requires other { IsSeat search.now other }
    requires position { position ≤ seat.size }
    ensures leg { result ≡ leg_distance search.now.problem seat.profile (place_in search.now seat.vehicle position) (place_in search.now other.vehicle other.place) }
    ensures reads { RoseAtMost 1 reads.old reads.new }
{
    let from = place_at(search.route(seat.vehicle), position as usize);
    let to = place_at(search.route(other.vehicle), other.place as usize);
    leg(search.data(), seat.profile, from, to, reads).distance
}
