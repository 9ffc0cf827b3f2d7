//! How neighbour lists are made.
ghost use Rattle.std.specs.Prelude.{◌≡◌, ◌≤◌, [], IfOk, map, replicate};
ghost use Rattle.search_model.specs.Neighbours.{neighbours};
ghost use Rattle.granular.specs.Pairs.{AreWeights, all_nears};

use crate::nearest::nearest;
use crate::nears::all_nears;
use crate::neighbour_lists::Neighbours;
use crate::proximity::Proximity;
use problem_data::{NoMemory, ProblemData};
use std::alloc::Global;
use std::thread::Threads;

/// As many empty lists as asked for.
fn empty_lists(alloc: Global, count: u32) -> Result<Vec<Vec<u32>>, NoMemory>
    ensures { IfOk result (λ lists. map (λ list. list.items) lists.items ≡ replicate count []) }
{
    let mut lists = Vec::new(alloc);
    for _ in 0..count {
        lists.push(Vec::new(alloc))?;
    }
    Ok(lists)
}

/// The lists of all places.
fn lists_of(
    alloc: Global,
    given: &ProblemData,
    weights: Proximity,
    nears: &[u64],
    count: usize,
) -> Result<Vec<Vec<u32>>, NoMemory>
    requires { nears.now ≡ all_nears given.now weights }
    ensures { IfOk result (λ lists. map (λ list. list.items) lists.items ≡ neighbours given.now count weights.wait weights.warp) }
{
    let clients = given.client_places();
    let mut lists = empty_lists(alloc, clients.start)?;
    for index in 0..(clients.end - clients.start) as usize {
        lists.push(nearest(alloc, given, weights, nears, index, count)?)?;
    }
    Ok(lists)
}

/// The neighbour lists: each client's has the k nearest of the other clients, by proximity and then by place; all of them where
/// there are fewer.
///
/// The proximity of two clients is the smaller one of their two orders' numbers: the distance from the one to the other, in
/// thousandths, with the wait and the time warp that a vehicle has at least, by their weights. These are computed for all pairs side by
/// side. Conditions: k is at least 1, and each weight at most 100,000. Refused only where memory runs out.
pub fn neighbours<R: Threads + Sync>(
    rt: &R,
    alloc: Global,
    given: &ProblemData,
    k: u32,
    weights: Proximity,
) -> Result<Neighbours, NoMemory>
    requires some { 1 ≤ k }
    requires weights { AreWeights weights }
    ensures { IfOk result (λ r. r ≡ neighbours given.now k weights.wait weights.warp) }
{
    let nears = all_nears(rt, alloc, given, weights)?;
    let lists = lists_of(alloc, given, weights, nears.as_slice(), k as usize)?;
    Ok(Neighbours { lists })
}
