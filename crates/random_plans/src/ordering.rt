//! Random orders of the clients.
ghost use Rattle.std.specs.Prelude.{◌≡◌, ◌+◌, ◌<◌, ◌^◌, IfOk, OnOk, map, zip};
ghost use Rattle.std.specs.List.{range_with_len};
ghost use Rattle.vrp_num.specs.Words.{state_after};
ghost use Rattle.vrp_num.specs.Words as drawn;
ghost use Rattle.random_model.specs.Draws.{client_order};

use problem_data::{NoMemory, ProblemData};
use std::alloc::Global;
use vrp_num::Xor128;

/// The places from `first` on, each behind a word that is drawn for it.
fn drawn_keys(
    alloc: Global,
    first: u32,
    count: u32,
    generator: &mut Xor128,
) -> Result<Vec<(u32, u32)>, NoMemory>
    requires { first + count < 2 ^ 32 }
    ensures keys { IfOk result (λ r. r.items ≡ zip (drawn.words count generator.old) (range_with_len first count)) }
    ensures state { OnOk result (generator.new ≡ state_after count generator.old) }
{
    let mut keys = Vec::new(alloc);
    for place in first..first + count {
        let word = generator.next();
        keys.push((word, place))?;
    }
    Ok(keys)
}

/// The places of keys, in order.
fn places_of_keys(alloc: Global, keys: &[(u32, u32)]) -> Result<Vec<u32>, NoMemory>
    ensures { IfOk result (λ r. r.items ≡ map (λ key. key.1) keys.now) }
{
    let mut places = Vec::new(alloc);
    for key in keys {
        places.push(key.1)?;
    }
    Ok(places)
}

/// A random order of the clients' places: a word is drawn for each client by ascending place, and the places are sorted by (word,
/// place). Refused only where memory runs out; some words may then have been drawn.
pub fn random_order(
    alloc: Global,
    given: &ProblemData,
    generator: &mut Xor128,
) -> Result<Vec<u32>, NoMemory>
    ensures order { IfOk result (λ r. r.items ≡ (client_order given.now generator.old).value) }
    ensures state { OnOk result (generator.new ≡ (client_order given.now generator.old).state) }
{
    let problem = given.problem();
    let depots = problem.depots.items().len() as u32;
    let clients = problem.clients.items().len() as u32;
    let mut keys = drawn_keys(alloc, depots, clients, generator)?;
    keys.sort()?;
    places_of_keys(alloc, keys.as_slice())
}
