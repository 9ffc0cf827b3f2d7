//! The new lists of a client that is put behind another one, with a reload directly before it.
ghost use Rattle.std.specs.Prelude.{◌≡◌, ◌+◌, ◌<◌, IsTrue};
ghost use Rattle.problem_data.specs.Places.{is_depot_place};
ghost use Rattle.new_lists.specs.declared.new_list.NewLists.TheVariants.{Two};
ghost use Rattle.reload_puts.specs.declared.beside.Beside.TheVariants.{Before};
ghost use Rattle.reload_puts.specs.PutLists.{ArePut};
ghost use Rattle.reload_puts.specs.inside.Lists.{earlier_list, joined_list, later_list, left_list, same_list};
ghost use Rattle.reload_puts.specs.Seats.{AreSeats};

use crate::gaps::gap_left;
use crate::seats::Seats;
use gain_model::Part;
use list_changes::Gap;
use move_core::Search;
use new_lists::{NewList, NewLists, nothing};

/// The new lists, with a reload at a depot.
pub(crate) fn put_lists_before(search: &Search<'_>, seats: Seats, depot: u32) -> NewLists
    requires depot { IsTrue (is_depot_place search.now.problem depot) }
    requires seats { AreSeats search.now seats }
    ensures { ArePut search.now Before seats depot result }
{
    search.soundness();
    let gap = gap_left(search, seats);
    if seats.other != seats.vehicle {
        across(seats, gap, depot)
    } else if seats.behind > seats.position {
        NewLists::One(later(seats, gap, depot))
    } else if seats.behind == seats.position {
        NewLists::One(in_place(seats, depot))
    } else {
        NewLists::One(earlier(seats, gap, depot))
    }
}

/// In another list.
fn across(seats: Seats, gap: Gap, depot: u32) -> NewLists
    ensures { result ≡ Two (left_list seats gap) (joined_list seats depot) }
{
    NewLists::Two(
        NewList::with_part(seats.vehicle, gap.left, nothing(seats.vehicle), gap.right),
        NewList {
            vehicle: seats.other,
            left: seats.behind,
            one: Part::Reload(depot),
            two: Part::Client(seats.client),
            three: nothing(seats.other),
            right: seats.behind,
        },
    )
}

/// Further behind in its list.
fn later(seats: Seats, gap: Gap, depot: u32) -> NewList
    ensures { result ≡ later_list seats gap depot }
{
    NewList {
        vehicle: seats.vehicle,
        left: gap.left,
        one: Part::Run {
            vehicle: seats.vehicle,
            first: gap.right,
            end: seats.behind,
        },
        two: Part::Reload(depot),
        three: Part::Client(seats.client),
        right: seats.behind,
    }
}

/// Where it stands: its neighbour stands directly before it.
fn in_place(seats: Seats, depot: u32) -> NewList
    requires { seats.position < 4294967295 }
    ensures { result ≡ same_list seats depot }
{
    NewList {
        vehicle: seats.vehicle,
        left: seats.behind,
        one: Part::Reload(depot),
        two: Part::Client(seats.client),
        three: nothing(seats.vehicle),
        right: seats.position + 1,
    }
}

/// Further before in its list.
fn earlier(seats: Seats, gap: Gap, depot: u32) -> NewList
    ensures { result ≡ earlier_list seats gap depot }
{
    NewList {
        vehicle: seats.vehicle,
        left: seats.behind,
        one: Part::Reload(depot),
        two: Part::Client(seats.client),
        three: Part::Run {
            vehicle: seats.vehicle,
            first: seats.behind,
            end: gap.left,
        },
        right: gap.right,
    }
}
