//! What a reload at one depot gains.
ghost use Rattle.std.specs.Prelude.{◌≡◌, true, IsTrue};
ghost use Rattle.problem_data.specs.declared.visit.Visit.TheVariants.{Reload};
ghost use Rattle.problem_data.specs.Places.{is_depot_place};
ghost use Rattle.problem_data.specs.Reads.{RoseAtMost};
ghost use Rattle.routing_model.specs.Lawful.{is_allowed};
ghost use Rattle.routing_model.specs.Listed.{type_of_vehicle};
ghost use Rattle.reload_puts.specs.Puts.{put_candidate, put_plan};
ghost use Rattle.reload_puts.specs.Seats.{AreSeats};
ghost use Rattle.depot_moves.specs.inside.Gains.{IsTried};

use move_core::Search;
use new_lists::improving_gain;
use penalty_cost::Gain;
use problem_data::{Reads, Steps};
use reload_puts::{Beside, Seats, may_reload, put_lists};

/// The gain of a client that is put behind its neighbour with a reload at a depot beside it, where that is lawful and lowers the cost.
/// Condition: the neighbour's vehicle may reload at the depot.
pub(crate) fn gain_at(
    search: &Search<'_>,
    beside: Beside,
    seats: Seats,
    depot: u32,
    reads: &mut Steps<Reads>,
) -> Option<Gain>
    requires seats { AreSeats search.now seats }
    requires depot { IsTrue (is_depot_place search.now.problem depot) }
    requires allowed { is_allowed (type_of_vehicle search.now.problem seats.other) (Reload depot) ≡ true }
    ensures gain { IsTried search.now (put_candidate beside seats.client seats.neighbour) (put_plan search.now beside seats.client seats.neighbour depot) result }
    ensures reads { RoseAtMost 12 reads.old reads.new }
{
    search.soundness();
    let lists = put_lists(search, beside, seats, depot);
    if !may_reload(search, lists) {
        return None;
    }
    improving_gain(search, lists, reads)
}
