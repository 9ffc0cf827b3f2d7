//! Ranks of values: how many come before each.
ghost use Rattle.std.specs.Prelude.{◌≡◌, ℕ, ◌<◌, ◌≤◌, length, slice_index};
ghost use Rattle.list_words.specs.Lists.{rank_rising};
ghost use Rattle.plan_fitness.specs.inside.Ranked.{AreInOrder, placed};

use arrayvec::ArrayVec;

/// The most items of a list of plans: the largest sizes of a population together, and one more before the list is purged.
pub const MOST_ITEMS: usize = 401;

/// Each value with its place.
fn placed(values: &[u128]) -> ArrayVec<(u128, u32), MOST_ITEMS>
    requires { length values.now ≤ MOST_ITEMS }
    ensures { result.items ≡ placed values.now }
{
    let mut pairs = ArrayVec::new();
    for (place, value) in values.iter().enumerate() {
        pairs.push((*value, place as u32));
    }
    pairs
}

/// Each value with its place, in order.
fn in_order(values: &[u128]) -> ArrayVec<(u128, u32), MOST_ITEMS>
    requires { length values.now ≤ MOST_ITEMS }
    ensures { AreInOrder values.now result.items }
{
    let mut pairs = placed(values);
    pairs.sort_unstable();
    pairs
}

/// How many places come before each place by (value, place).
pub(crate) fn ranks(values: &[u128]) -> [u32; MOST_ITEMS]
    requires { length values.now ≤ MOST_ITEMS }
    ensures { (i : ℕ) → i < length values.now → slice_index result i ≡ rank_rising values.now i }
{
    let pairs = in_order(values);
    let mut ranks = [0; MOST_ITEMS];
    for (rank, pair) in pairs.as_slice().iter().enumerate() {
        ranks[pair.1 as usize] = rank as u32;
    }
    ranks
}
