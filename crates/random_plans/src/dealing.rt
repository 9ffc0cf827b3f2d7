//! Clients dealt out to the vehicles.
ghost use Rattle.std.specs.Prelude.{◌≡◌, ◌+◌, ◌*◌, ◌<◌, ◌≤◌, ◌^◌, IfOk, drop, map, take};
ghost use Rattle.random_model.specs.RandomSolution as model;

use problem_data::{NoMemory, RouteList, Solution, Visit, VisitList};
use std::alloc::Global;

/// Visits of these clients, in order.
fn visits_of(alloc: Global, clients: &[u32]) -> Result<VisitList, NoMemory>
    ensures { IfOk result (λ r. r ≡ map Visit.Client clients.now) }
{
    let mut visits = Vec::new(alloc);
    for place in clients {
        visits.push(Visit::Client(*place))?;
    }
    Ok(VisitList::from_vec(visits))
}

/// The vehicle's part of the clients, where each vehicle in turn gets so many.
fn part_of(clients: &[u32], share: usize, vehicle: usize) -> &[u32]
    requires { vehicle * share + share < 2 ^ 64 }
    ensures { result.now ≡ take share (drop (vehicle * share) clients.now) }
{
    let first = clients.len().min(vehicle * share);
    let end = clients.len().min(first + share);
    &clients[first..end]
}

/// The chosen clients dealt out in order, so many to each vehicle that they suffice.
pub(crate) fn dealt(alloc: Global, vehicles: u32, clients: &[u32]) -> Result<Solution, NoMemory>
    requires { 1 ≤ vehicles }
    ensures { IfOk result (λ r. r.routes ≡ model.dealt vehicles clients.now) }
{
    let vehicles = vehicles as usize;
    let share = (clients.len() + vehicles - 1) / vehicles;
    let mut routes = Vec::new(alloc);
    for vehicle in 0..vehicles {
        let visits = visits_of(alloc, part_of(clients, share, vehicle))?;
        routes.push(visits)?;
    }
    Ok(Solution {
        routes: RouteList::from_vec(routes),
    })
}
