//! How far clients are after one another.
ghost use Rattle.std.specs.Prelude.{◌≡◌, ◌*◌, ◌<◌, ◌≤◌, IfOk, IsTrue, length};
ghost use Rattle.problem_data.specs.Places.{is_client_place};
ghost use Rattle.problem_data.specs.Valid.{IsValid};
ghost use Rattle.search_model.specs.Neighbours.{near};
ghost use Rattle.granular.specs.Pairs.{AreWeights, all_nears, pair_near};

use crate::proximity::Proximity;
use problem_data::{NoMemory, ProblemData, Reads, Steps, leg};
use rayon::prelude::*;
use std::alloc::Global;
use std::thread::Threads;

/// How far a client is after another, in thousandths of a unit of distance: the distance, and the weighted wait and time warp of a
/// vehicle that drives from the one to the other.
fn near(
    given: &ProblemData,
    from: u32,
    to: u32,
    weights: Proximity,
    reads: &mut Steps<Reads>,
) -> u64
    requires from { IsTrue (is_client_place given.now from) }
    requires to { IsTrue (is_client_place given.now to) }
    requires weights { AreWeights weights }
    ensures { result ≡ near given.now weights.wait weights.warp from to }
{
    given.validity();
    let first = given.client(from);
    let second = given.client(to);
    let leg = leg(given, 0, from, to, reads);
    let duration = u64::from(leg.duration);
    let latest = first.window.late + first.service + duration;
    let earliest = first.window.early + first.service + duration;
    let wait = second.window.early.saturating_sub(latest);
    let warp = earliest.saturating_sub(second.window.late);
    1000 * u64::from(leg.distance) + weights.wait * wait + weights.warp * warp
}

/// How far the second client of the k-th pair is after the first, pairs being counted row after row.
#[tactic(auto, unfolding(crate::specs::Pairs::pair_near))]
fn pair_near<R: Threads + Sync>(rt: &R, given: &ProblemData, weights: Proximity, k: usize) -> u64
    requires pair { k < length given.now.clients * length given.now.clients }
    requires weights { AreWeights weights }
    ensures { result ≡ pair_near given.now weights k }
{
    given.validity();
    let clients = given.client_places();
    let count = (clients.end - clients.start) as usize;
    let first = clients.start + (k / count) as u32;
    let second = clients.start + (k % count) as u32;
    let mut reads = Steps::new(rt);
    near(given, first, second, weights, &mut reads)
}

/// How far each client is after each client, row after row. The pairs are computed side by side.
pub(crate) fn all_nears<R: Threads + Sync>(
    rt: &R,
    alloc: Global,
    given: &ProblemData,
    weights: Proximity,
) -> Result<Vec<u64>, NoMemory>
    requires { AreWeights weights }
    ensures { IfOk result (λ made. made.items ≡ all_nears given.now weights) }
{
    given.validity();
    let clients = given.problem().clients.items().len();
    let made = (0..clients * clients)
        .into_par_iter()
        .map(
            |k: usize| -> u64
                requires pair { k < length given.now.clients * length given.now.clients }
                requires weights { AreWeights weights }
                ensures { result ≡ pair_near given.entry.now weights k }
            { pair_near(rt, given, weights, k) },
        )
        .collect(rt, alloc)?;
    Ok(made)
}
