//! Where a client and its neighbour stand.
ghost use Rattle.std.specs.Prelude.{◌≡◌, false};
ghost use Rattle.std.specs.Option.{MatchOption};
ghost use Rattle.reload_puts.specs.Seats.{IsSeated, has_seats};

use move_core::Search;

/// A client's vehicle and its position there, from 0, and its neighbour's vehicle and the position directly behind that one.
#[derive(Clone, Copy)]
pub struct Seats {
    pub client: u32,
    pub neighbour: u32,
    pub vehicle: u32,
    pub position: u32,
    pub other: u32,
    pub behind: u32,
}

/// Where a client and its neighbour stand. None where one of them isn't visited, or both are one.
pub fn seats_of(search: &Search<'_>, client: u32, neighbour: u32) -> Option<Seats>
    ensures { MatchOption result (has_seats search.now client neighbour ≡ false) (λ seats. IsSeated search.now client neighbour seats) }
{
    if client == neighbour {
        return None;
    }
    let (vehicle, place) = search.position(client)?;
    let (other, behind) = search.position(neighbour)?;
    Some(Seats {
        client,
        neighbour,
        vehicle,
        position: place - 1,
        other,
        behind,
    })
}
