//! The nearest clients of a client.
ghost use Rattle.std.specs.Prelude.{◌≡◌, ◌+◌, ◌<◌, IfOk, length, map, take};
ghost use Rattle.list_words.specs.Order.{pair_lt, sorted_by};
ghost use Rattle.problem_data.specs.Places.{depot_count};
ghost use Rattle.search_model.specs.Neighbours.{neighbours_of};
ghost use Rattle.granular.specs.Pairs.{all_nears, keys_of};

use crate::proximity::Proximity;
use problem_data::{NoMemory, ProblemData};
use std::alloc::Global;

/// How near each other client is to the client with this index, by the nearer of their two orders, with its place.
fn keyed_others(
    alloc: Global,
    given: &ProblemData,
    weights: Proximity,
    nears: &[u64],
    index: usize,
) -> Result<Vec<(u64, u32)>, NoMemory>
    requires nears { nears.now ≡ all_nears given.now weights }
    requires index { index < length given.now.clients }
    ensures { IfOk result (λ keys. keys.items ≡ keys_of given.now weights (depot_count given.now + index)) }
{
    given.validity();
    let clients = given.client_places();
    let count = (clients.end - clients.start) as usize;
    let mut keys = Vec::with_capacity(alloc, count)?;
    for other in 0..count {
        if other != index {
            let there = nears[index * count + other];
            let back = nears[other * count + index];
            keys.push((there.min(back), clients.start + other as u32))?;
        }
    }
    Ok(keys)
}

/// The places of keys.
fn places_of_keys(alloc: Global, keys: &[(u64, u32)]) -> Result<Vec<u32>, NoMemory>
    ensures { IfOk result (λ places. places.items ≡ map (λ key. key.1) keys.now) }
{
    let mut places = Vec::with_capacity(alloc, keys.len())?;
    for key in keys {
        places.push(key.1)?;
    }
    Ok(places)
}

/// The places of keys, by the order of the keys.
fn sorted_places(alloc: Global, keys: &mut [(u64, u32)]) -> Result<Vec<u32>, NoMemory>
    ensures { IfOk result (λ places. places.items ≡ map (λ key. key.1) (sorted_by pair_lt keys.old)) }
{
    keys.sort_unstable();
    places_of_keys(alloc, keys)
}

/// The places of the least keys, by their order: `count` of them, or all.
fn least_places(alloc: Global, keys: &mut [(u64, u32)], count: usize) -> Result<Vec<u32>, NoMemory>
    ensures { IfOk result (λ places. places.items ≡ map (λ key. key.1) (take count (sorted_by pair_lt keys.old))) }
{
    if count < keys.len() {
        let (least, _, _) = keys.select_nth_unstable(count);
        sorted_places(alloc, least)
    } else {
        sorted_places(alloc, keys)
    }
}

/// The nearest clients of the client with this index: `count` of them, or all others.
pub(crate) fn nearest(
    alloc: Global,
    given: &ProblemData,
    weights: Proximity,
    nears: &[u64],
    index: usize,
    count: usize,
) -> Result<Vec<u32>, NoMemory>
    requires nears { nears.now ≡ all_nears given.now weights }
    requires index { index < length given.now.clients }
    ensures { IfOk result (λ places. places.items ≡ neighbours_of given.now count weights.wait weights.warp (depot_count given.now + index)) }
{
    let mut keys = keyed_others(alloc, given, weights, nears, index)?;
    least_places(alloc, keys.as_mut_slice(), count)
}
