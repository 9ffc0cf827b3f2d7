//! Pieces: clients that stand one behind the other.
ghost use Rattle.std.specs.Prelude.{◌≡◌, ◌+◌, ◌≤◌, None};
ghost use Rattle.std.specs.Option.{MatchOption};
ghost use Rattle.problem_data.specs.Places.{vehicle_count};
ghost use Rattle.search_model.specs.Edits.{piece};
ghost use Rattle.exchange_screens.specs.inside.Pieces.{IsPieceFrom};

use list_changes::Span;
use move_core::Search;

/// Some clients of a vehicle's list: the visits from one position, from 0, up to another.
#[derive(Clone, Copy)]
pub(crate) struct Piece {
    pub(crate) vehicle: u32,
    pub(crate) first: u32,
    pub(crate) end: u32,
}

impl Piece {
    /// Its visits.
    pub(crate) fn span(self) -> Span
        ensures { result ≡ record { first = self.first; end = self.end } }
    {
        Span {
            first: self.first,
            end: self.end,
        }
    }
}

/// The piece of n from a client: n visits from it on, all of them clients. None where there is none. It reads no leg.
pub(crate) fn piece_from(search: &Search<'_>, client: u32, n: u32) -> Option<Piece>
    requires some { 1 ≤ n }
    requires few { n ≤ 3 }
    ensures { MatchOption result (piece search.now.routes n client ≡ None) (λ found. IsPieceFrom search.now client n found) }
{
    let (vehicle, place) = search.position(client)?;
    let first = place - 1;
    let route = search.route(vehicle);
    let marks = route.marks();
    let size = search.size(vehicle);
    let room = size - first;
    if n > room {
        return None;
    }
    let end = first + n;
    let before = marks[first as usize].reloads;
    let behind = marks[end as usize].reloads;
    if behind != before {
        return None;
    }
    Some(Piece {
        vehicle,
        first,
        end,
    })
}
