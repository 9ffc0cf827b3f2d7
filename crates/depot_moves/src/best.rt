//! The depot that gains the most.
ghost use Rattle.std.specs.Prelude.{◌++◌, ◌*◌, [], ◌∷◌, List, length};
ghost use Rattle.problem_data.specs.Reads.{RoseAtMost};
ghost use Rattle.routing_model.specs.Listed.{type_of_vehicle};
ghost use Rattle.routing_model.specs.Routes.{Routes};
ghost use Rattle.search_model.specs.declared.candidate.Candidate.{Candidate};
ghost use Rattle.move_core.specs.Searches.{SearchState};
ghost use Rattle.reload_puts.specs.Puts.{put_candidate};
ghost use Rattle.reload_puts.specs.Seats.{AreSeats};
ghost use Rattle.depot_moves.specs.inside.Gains.{IsBest, IsTried, put_plans};

use crate::trial::gain_at;
use move_core::Search;
use penalty_cost::Gain;
use problem_data::{Reads, Steps};
use reload_puts::{Beside, Seats};

/// The gain with a reload at the first depot of least cost, among those that the neighbour's vehicle may reload at, where that lowers
/// the cost.
pub(crate) fn best_gain(
    search: &Search<'_>,
    beside: Beside,
    seats: Seats,
    reads: &mut Steps<Reads>,
) -> Option<Gain>
    requires { AreSeats search.now seats }
    ensures gain { IsBest search.now (put_candidate beside seats.client seats.neighbour) (put_plans search.now beside seats (type_of_vehicle search.now.problem seats.other).reload_depots) result }
    ensures reads { RoseAtMost (length (type_of_vehicle search.now.problem seats.other).reload_depots * 12) reads.old reads.new }
{
    let depots = search
        .data()
        .vehicle_type(seats.other)
        .reload_depots
        .items();
    let mut best: Option<Gain> = None;
    for k in 0..depots.len() {
        let found = gain_at(search, beside, seats, depots[k], reads);
        best = better(best, found);
    }
    best
}

/// The better one of two gains, the first one on a tie.
fn better(best: Option<Gain>, found: Option<Gain>) -> Option<Gain>
    ensures { (s : SearchState) (candidate : Candidate) (plans : List Routes) (plan : Routes) → IsBest s candidate plans best → IsTried s candidate plan found → IsBest s candidate (plans ++ plan ∷ []) result }
{
    let Some(new) = found else {
        return best;
    };
    let Some(old) = best else {
        return Some(new);
    };
    if new.amount() < old.amount() {
        Some(new)
    } else {
        Some(old)
    }
}
