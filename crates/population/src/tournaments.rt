//! Tournaments of two.
ghost use Rattle.std.specs.Prelude.{◌≡◌, ◌<◌, ◌^◌, length};
ghost use Rattle.genetic_model.specs.Selection.{tournament, winner};

use crate::score::Score;
use vrp_num::Xor128;

/// The better of two places, the first on a tie.
fn winner(scores: &[Score], first: u32, second: u32) -> u32
    requires first { first < length scores.now }
    requires second { second < length scores.now }
    ensures { result ≡ winner scores.now first second }
{
    if scores[second as usize].is_better(&scores[first as usize]) {
        second
    } else {
        first
    }
}

/// The better of two places that are drawn. Condition: there are scores, fewer than 2^32.
pub(crate) fn tournament(scores: &[Score], words: &mut Xor128) -> u32
    requires some { 0 < length scores.now }
    requires few { length scores.now < 2 ^ 32 }
    ensures place { result ≡ (tournament scores.now words.old).value }
    ensures state { words.new ≡ (tournament scores.now words.old).state }
    ensures there { result < length scores.now }
{
    let places = scores.len() as u32;
    let first = words.below(places);
    let second = words.below(places);
    winner(scores, first, second)
}
