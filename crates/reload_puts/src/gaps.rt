//! What is left of a client's list without it.
ghost use Rattle.std.specs.Prelude.{◌+◌};
ghost use Rattle.routing_model.specs.Routes.{list_at};
ghost use Rattle.list_changes.specs.Gaps.{IsGap};
ghost use Rattle.reload_puts.specs.Seats.{AreSeats};

use crate::seats::Seats;
use list_changes::{Gap, gap_of};
use move_core::Search;

/// What is left of a client's list without it, so that it is tidy.
pub(crate) fn gap_left(search: &Search<'_>, seats: Seats) -> Gap
    requires { AreSeats search.now seats }
    ensures { IsGap (list_at search.now.routes seats.vehicle) seats.position (seats.position + 1) result }
{
    gap_of(
        search.route(seats.vehicle),
        seats.position,
        seats.position + 1,
    )
}
