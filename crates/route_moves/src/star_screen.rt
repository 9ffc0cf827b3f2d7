//! Swaps of two clients that surely don't lower the cost, told before anything is copied.
ghost use Rattle.std.specs.Prelude.{◌≡◌, ◌*◌, ◌^◌, ◌<◌, IsTrue, None};
ghost use Rattle.problem_data.specs.Places.{vehicle_count};
ghost use Rattle.new_lists.specs.Moves.{IsAnswerTo};
ghost use Rattle.route_moves.specs.inside.Stars.{IsStarPair, star_candidate};
ghost use Rattle.route_moves.specs.inside.Swings.{IsSwing};

use list_changes::CUT;
use move_core::Search;
use star_pairs::{Pair, Turn};

/// What a vehicle drives farther costs, and what it drives less; one of them is 0.
#[derive(Clone, Copy)]
pub(crate) struct Swing {
    pub(crate) rise: u128,
    pub(crate) fall: u128,
}

/// Whether the swap of a pair surely doesn't lower the cost: what the two vehicles drive farther costs as much as all that they cost
/// besides their fixed costs and their distances.
pub(crate) fn is_dear(search: &Search<'_>, first: u32, second: u32, pair: Pair) -> bool
    requires { IsStarPair search.now first second pair }
    ensures { IsTrue result → IsAnswerTo search.now (star_candidate first second) None }
{
    search.soundness();
    let rest = search.rest(first) as u64;
    let other = search.rest(second) as u64;
    if rest >= CUT || other >= CUT {
        return false;
    }
    let one = swing_of(search, first, pair.first);
    let two = swing_of(search, second, pair.second);
    one.fall + two.fall + u128::from(rest + other) <= one.rise + two.rise
}

/// What a turn changes of what a vehicle's distance costs. Condition: the vehicle is in range.
fn swing_of(search: &Search<'_>, vehicle: u32, turn: Turn) -> Swing
    requires { vehicle < vehicle_count search.now.problem }
    ensures { IsSwing search.now vehicle turn.change result }
{
    let unit = search.data().vehicle_type(vehicle).unit_distance;
    Swing {
        rise: scaled(unit, turn.change.max(0) as u64),
        fall: scaled(unit, turn.change.min(0).unsigned_abs()),
    }
}

/// A unit cost times an amount.
fn scaled(unit: u64, amount: u64) -> u128
    requires { unit < 2 ^ 32 }
    ensures product { result ≡ unit * amount }
    ensures small { result < 2 ^ 96 }
{
    u128::from(unit) * u128::from(amount)
}
