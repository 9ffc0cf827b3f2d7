//! Random plans.
ghost use Rattle.std.specs.Prelude.{◌≡◌, ◌≤◌, IfOk, OnOk, IsTrue};
ghost use Rattle.problem_data.specs.Places.{vehicle_count};
ghost use Rattle.routing_model.specs.Lawful.{is_lawful};
ghost use Rattle.random_model.specs.RandomSolution as model;

use crate::choosing::chosen_clients;
use crate::dealing::dealt;
use crate::ordering::random_order;
use problem_data::{NoMemory, ProblemData, Solution};
use std::alloc::Global;
use vrp_num::Xor128;

/// How many vehicles there are: at least one, since the problem is valid.
fn vehicles_of(given: &ProblemData) -> u32
    ensures count { result ≡ vehicle_count given.now }
    ensures some { 1 ≤ result }
{
    given.validity();
    given.vehicles()
}

/// The random plan that the generator's next words give: a random order of the clients is walked, required clients and a member of
/// each required group are chosen, others by a draw, and the chosen are dealt out in order, to each vehicle their number divided by
/// that of the vehicles and rounded up, until none is left. It is lawful. Refused only where memory runs out; some words may
/// then have been drawn.
pub fn random_solution(
    alloc: Global,
    given: &ProblemData,
    generator: &mut Xor128,
) -> Result<Solution, NoMemory>
    ensures solution { IfOk result (λ r. r.routes ≡ (model.random_solution given.now generator.old).value) }
    ensures state { OnOk result (generator.new ≡ (model.random_solution given.now generator.old).state) }
    ensures lawful { IfOk result (λ r. IsTrue (is_lawful given.now r.routes)) }
{
    given.validity();
    let order = random_order(alloc, given, generator)?;
    let chosen = chosen_clients(alloc, given, order.as_slice(), generator)?;
    dealt(alloc, vehicles_of(given), chosen.as_slice())
}
