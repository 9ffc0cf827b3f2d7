//! The best pair of clients of two lists.
ghost use Rattle.std.specs.Prelude.{◌≡◌, ℕ, ◌+◌, ◌*◌, ◌<◌, ◌≤◌, length};
ghost use Rattle.problem_data.specs.Reads.{RoseAtMost};
ghost use Rattle.route_cache.specs.Routes.{RouteState};
ghost use Rattle.star_pairs.specs.BestPairs.{IsBestPair};
ghost use Rattle.star_pairs.specs.inside.Pairs.{AreKept, IsBestSoFar, IsPairAt};

use crate::pair::{Pair, client_at, pair_at};
use problem_data::{Reads, Steps};
use route_cache::Route;
use star_places::{ThreePlaces, three_places};

/// The best places in the second list for each client of the first one, as far as the first list goes.
fn keep_places(
    first: &Route<'_>,
    second: &Route<'_>,
    kept: &mut [ThreePlaces],
    reads: &mut Steps<Reads>,
)
    requires problem { second.now.problem ≡ first.now.problem }
    requires room { length first.now.visits ≤ length kept.old }
    ensures kept { AreKept first.now second.now (length first.now.visits) kept.new }
    ensures room { length kept.new ≡ length kept.old }
    ensures reads { RoseAtMost (length first.now.visits * (2 * (length second.now.visits + 1))) reads.old reads.new }
{
    for at in 0..first.visits().len() {
        kept[at] = three_places(second, client_at(first, at as u32), reads);
    }
}

/// The earlier of the best pair so far and the next one.
fn earlier(best: Pair, pair: Pair) -> Pair
    ensures { (a b : RouteState) (i j : ℕ) → i < length a.visits → j < length b.visits → IsBestSoFar a b j i best → IsPairAt a b i j pair → IsBestSoFar a b j (i + 1) result }
{
    if pair.is_before(best) { pair } else { best }
}

/// The best of a pair and those of each client of the first list with the client at a position of the second one.
fn best_with(
    first: &Route<'_>,
    second: &Route<'_>,
    v_at: u32,
    kept: &[ThreePlaces],
    so_far: Pair,
    reads: &mut Steps<Reads>,
) -> Pair
    requires problem { second.now.problem ≡ first.now.problem }
    requires v_at { v_at < length second.now.visits }
    requires kept { AreKept first.now second.now (length first.now.visits) kept.now }
    requires room { length first.now.visits ≤ length kept.now }
    requires best { IsBestSoFar first.now second.now v_at 0 so_far }
    ensures best { IsBestSoFar first.now second.now v_at (length first.now.visits) result }
    ensures reads { RoseAtMost (2 * (length first.now.visits + 1) + length first.now.visits * 4) reads.old reads.new }
{
    let for_v = three_places(first, client_at(second, v_at), reads);
    let mut best = so_far;
    for u_at in 0..first.visits().len() {
        let pair = pair_at(first, second, u_at as u32, v_at, kept[u_at], for_v, reads);
        best = earlier(best, pair);
    }
    best
}

/// The pair of the first clients.
fn first_pair(
    first: &Route<'_>,
    second: &Route<'_>,
    kept: &[ThreePlaces],
    reads: &mut Steps<Reads>,
) -> Pair
    requires problem { second.now.problem ≡ first.now.problem }
    requires some { 0 < length first.now.visits }
    requires other_some { 0 < length second.now.visits }
    requires kept { AreKept first.now second.now (length first.now.visits) kept.now }
    requires room { length first.now.visits ≤ length kept.now }
    ensures best { IsBestSoFar first.now second.now 0 0 result }
    ensures reads { RoseAtMost (2 * (length first.now.visits + 1) + 4) reads.old reads.new }
{
    let for_v = three_places(first, client_at(second, 0), reads);
    pair_at(first, second, 0, 0, kept[0], for_v, reads)
}

/// The best pair of a client of the first list and a client of the second one, where all visits of both are clients: the pair of the
/// least change of the two distances together, and of those the one with the least client of the first list, and then of the second.
///
/// Conditions: both lists have visits, and `kept` has room for the first one. With a and b visits it reads at most 20 · a · b legs.
pub fn best_pair(
    first: &Route<'_>,
    second: &Route<'_>,
    kept: &mut [ThreePlaces],
    reads: &mut Steps<Reads>,
) -> Pair
    requires problem { second.now.problem ≡ first.now.problem }
    requires some { 0 < length first.now.visits }
    requires other_some { 0 < length second.now.visits }
    requires room { length first.now.visits ≤ length kept.old }
    ensures best { IsBestPair first.now second.now result }
    ensures room { length kept.new ≡ length kept.old }
    ensures reads { RoseAtMost (20 * (length first.now.visits * length second.now.visits)) reads.old reads.new }
{
    keep_places(first, second, kept, reads);
    let mut best = first_pair(first, second, kept, reads);
    for v_at in 0..second.visits().len() {
        best = best_with(first, second, v_at as u32, kept, best, reads);
    }
    best
}
