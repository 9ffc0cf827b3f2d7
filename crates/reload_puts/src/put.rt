//! The new lists of a client that is put behind another one with a reload beside it.
ghost use Rattle.std.specs.Prelude.{IsTrue};
ghost use Rattle.problem_data.specs.Places.{is_depot_place};
ghost use Rattle.reload_puts.specs.PutLists.{ArePut};
ghost use Rattle.reload_puts.specs.Seats.{AreSeats};

use crate::beside::Beside;
use crate::lists_after::put_lists_after;
use crate::lists_before::put_lists_before;
use crate::seats::Seats;
use move_core::Search;
use new_lists::NewLists;

/// The new lists with a reload at a depot, tidied. No leg is read.
pub fn put_lists(search: &Search<'_>, beside: Beside, seats: Seats, depot: u32) -> NewLists
    requires depot { IsTrue (is_depot_place search.now.problem depot) }
    requires seats { AreSeats search.now seats }
    ensures { ArePut search.now beside seats depot result }
{
    match beside {
        Beside::Before => put_lists_before(search, seats, depot),
        Beside::After => put_lists_after(search, seats, depot),
    }
}
