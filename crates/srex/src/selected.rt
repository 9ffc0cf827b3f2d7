//! Which routes are exchanged.
ghost use Rattle.std.specs.Prelude.{◌≡◌, ◌+◌, ◌<◌, ◌^◌, IfOk, length};
ghost use Rattle.genetic_model.specs.RouteSelection.{around, settled};
ghost use Rattle.route_rings.specs.Selections.{AreRings, AreStarts, difference_of};

use genetic_model::Starts;
use problem_data::{NoMemory, ProblemData};
use route_rings::Rings;
use std::alloc::Global;

/// So many vehicles of an order from a place on, going round.
pub(crate) fn selected(
    alloc: Global,
    order: &[u32],
    start: u32,
    count: u32,
) -> Result<Vec<u32>, NoMemory>
    requires some { 0 < length order.now }
    requires few { start + count < 2 ^ 32 }
    ensures { IfOk result (λ r. r.items ≡ around order.now start count) }
{
    let mut vehicles = Vec::new(alloc);
    for at in start..start + count {
        vehicles.push(order[at as usize % order.len()])?;
    }
    Ok(vehicles)
}

/// The starts to which the first ones lead.
pub(crate) fn settled_starts(
    alloc: Global,
    given: &ProblemData,
    rings: Rings<'_>,
    starts: Starts,
) -> Result<Starts, NoMemory>
    requires rings { AreRings given.now rings }
    requires starts { AreStarts rings starts }
    ensures settled { IfOk result (λ r. r ≡ settled (difference_of given.now rings.entry) (length rings.entry.first.order.now) (length rings.entry.second.order.now) starts) }
    ensures there { IfOk result (AreStarts rings.entry) }
{
    given.validity();
    let places = given.problem().places.items().len();
    let mut marks = vec![in alloc; false; places]?;
    let mut others = vec![in alloc; false; places]?;
    Ok(rings.settled(given, starts, marks.as_mut_slice(), others.as_mut_slice()))
}
