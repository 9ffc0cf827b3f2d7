//! The answer to a client and its new neighbour.
ghost use Rattle.std.specs.Prelude.{◌*◌};
ghost use Rattle.problem_data.specs.Reads.{RoseAtMost};
ghost use Rattle.search_model.specs.declared.candidate.Target.TheVariants as target;
ghost use Rattle.gain_model.specs.MoveReads.{depots_at};
ghost use Rattle.new_lists.specs.Moves.{IsAnswerTo};
ghost use Rattle.reload_puts.specs.Puts.{put_candidate};

use crate::best::best_gain;
use move_core::Search;
use penalty_cost::Gain;
use problem_data::{Reads, Steps};
use reload_puts::{Beside, seats_of};

/// The gain of a client that is put behind another one with a reload beside it, at the first depot of least cost, where that lowers the
/// cost. Nothing is copied or allocated. It reads at most twelve legs for each depot.
pub(crate) fn put_answer(
    search: &Search<'_>,
    beside: Beside,
    client: u32,
    neighbour: u32,
    reads: &mut Steps<Reads>,
) -> Option<Gain>
    ensures answer { IsAnswerTo search.now (put_candidate beside client neighbour) result }
    ensures reads { RoseAtMost (depots_at search.now.problem search.now.routes (target.After neighbour) * 12) reads.old reads.new }
{
    search.soundness();
    let seats = seats_of(search, client, neighbour)?;
    best_gain(search, beside, seats, reads)
}
