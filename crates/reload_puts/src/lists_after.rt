//! The new lists of a client that is put behind another one, with a reload directly after it.
ghost use Rattle.std.specs.Prelude.{◌≡◌, IsTrue};
ghost use Rattle.problem_data.specs.Places.{is_depot_place};
ghost use Rattle.new_lists.specs.declared.new_list.NewLists.TheVariants.{Two};
ghost use Rattle.reload_puts.specs.declared.beside.Beside.TheVariants.{After};
ghost use Rattle.reload_puts.specs.PutLists.{ArePut};
ghost use Rattle.reload_puts.specs.inside.Lists.{left_list};
ghost use Rattle.reload_puts.specs.inside.ListsAfter.{earlier_list_after, joined_list_after, kept_part, later_list_after, same_list_after};
ghost use Rattle.reload_puts.specs.Seats.{AreSeats};

use crate::ending::{Ending, ending_of};
use crate::gaps::gap_left;
use crate::seats::Seats;
use gain_model::Part;
use list_changes::Gap;
use move_core::Search;
use new_lists::{NewList, NewLists, nothing};

/// The new lists, with a reload at a depot. The reload goes where nothing comes behind it, and takes the place of a reload that would
/// come next.
pub(crate) fn put_lists_after(search: &Search<'_>, seats: Seats, depot: u32) -> NewLists
    requires depot { IsTrue (is_depot_place search.now.problem depot) }
    requires seats { AreSeats search.now seats }
    ensures { ArePut search.now After seats depot result }
{
    search.soundness();
    let gap = gap_left(search, seats);
    let ending = ending_of(search, seats.other, seats.behind);
    if seats.other != seats.vehicle {
        across(seats, gap, ending, depot)
    } else if seats.behind > seats.position {
        NewLists::One(later(seats, gap, ending, depot))
    } else if ending.right < seats.position {
        NewLists::One(earlier(seats, gap, ending.right, depot))
    } else {
        let rest = ending_of(search, seats.vehicle, seats.position + 1);
        NewLists::One(in_place(seats, rest, depot))
    }
}

/// The reload, or nothing where it doesn't stay.
fn kept(vehicle: u32, ending: Ending, depot: u32) -> Part
    ensures { result ≡ kept_part vehicle depot ending.stays }
{
    if ending.stays {
        Part::Reload(depot)
    } else {
        nothing(vehicle)
    }
}

/// In another list.
fn across(seats: Seats, gap: Gap, ending: Ending, depot: u32) -> NewLists
    ensures { result ≡ Two (left_list seats gap) (joined_list_after seats ending depot) }
{
    NewLists::Two(
        NewList::with_part(seats.vehicle, gap.left, nothing(seats.vehicle), gap.right),
        NewList {
            vehicle: seats.other,
            left: seats.behind,
            one: Part::Client(seats.client),
            two: kept(seats.other, ending, depot),
            three: nothing(seats.other),
            right: ending.right,
        },
    )
}

/// Further behind in its list.
fn later(seats: Seats, gap: Gap, ending: Ending, depot: u32) -> NewList
    ensures { result ≡ later_list_after seats gap ending depot }
{
    NewList {
        vehicle: seats.vehicle,
        left: gap.left,
        one: Part::Run {
            vehicle: seats.vehicle,
            first: gap.right,
            end: seats.behind,
        },
        two: Part::Client(seats.client),
        three: kept(seats.vehicle, ending, depot),
        right: ending.right,
    }
}

/// Further before in its list, in front of the visits from a position on.
fn earlier(seats: Seats, gap: Gap, first: u32, depot: u32) -> NewList
    ensures { result ≡ earlier_list_after seats gap first depot }
{
    NewList {
        vehicle: seats.vehicle,
        left: seats.behind,
        one: Part::Client(seats.client),
        two: Part::Reload(depot),
        three: Part::Run {
            vehicle: seats.vehicle,
            first,
            end: gap.left,
        },
        right: gap.right,
    }
}

/// Where it stands: its neighbour stands directly before it, or before a reload that goes.
fn in_place(seats: Seats, rest: Ending, depot: u32) -> NewList
    ensures { result ≡ same_list_after seats rest depot }
{
    NewList {
        vehicle: seats.vehicle,
        left: seats.behind,
        one: Part::Client(seats.client),
        two: kept(seats.vehicle, rest, depot),
        three: nothing(seats.vehicle),
        right: rest.right,
    }
}
