//! The exchange of routes between two plans.
ghost use Rattle.std.specs.Prelude.{◌≡◌, ◌<◌, ◌≤◌, IfOk, IsTrue, OnOk, length};
ghost use Rattle.penalty_cost.specs.Plans.{IsWeighed};
ghost use Rattle.routing_model.specs.Lawful.{is_lawful};
ghost use Rattle.genetic_model.specs.RouteExchange as model;
ghost use Rattle.route_rings.specs.Selections.{AreStarts};
ghost use Rattle.srex.specs.inside.Parents.{AreParents};

use crate::child::child_of;
use crate::selected::{selected, settled_starts};
use exchange_children::Exchanged;
use genetic_model::{Starts, exchange_is_lawful};
use problem_data::{NoMemory, ProblemData, Reads, RouteList, Solution, Steps, VisitList};
use route_rings::{Ring, Rings, route_order};
use routing_model::Weights;
use std::alloc::Global;
use vrp_num::Xor128;

/// The child of the exchange to which the first starts lead.
fn child_from(
    alloc: Global,
    given: &ProblemData,
    weights: Weights,
    rings: Rings<'_>,
    starts: Starts,
    reads: &mut Steps<Reads>,
) -> Result<Vec<VisitList>, NoMemory>
    requires parents { AreParents given.now rings.first rings.second }
    requires count { rings.count ≤ length rings.second.order.now }
    requires starts { AreStarts rings starts }
    requires weights { IsWeighed weights }
    ensures { IfOk result (λ r. r.items ≡ model.child_of_exchange given.now weights rings.entry.first.routes.now rings.entry.second.routes.now (model.exchange_from given.now rings.entry.first.routes.now rings.entry.second.routes.now rings.entry.count starts)) }
{
    let starts = settled_starts(alloc, given, rings, starts)?;
    let into = selected(alloc, rings.first.order, starts.first, rings.count)?;
    let from = selected(alloc, rings.second.order, starts.second, rings.count)?;
    let exchanged = Exchanged {
        parent: rings.first.routes,
        other: rings.second.routes,
        into: into.as_slice(),
        from: from.as_slice(),
    };
    child_of(alloc, given, weights, exchanged, reads)
}

/// The child of two plans' used vehicles in their orders, by two draws: of the number of routes, and of the first start.
fn child_by_draws(
    alloc: Global,
    given: &ProblemData,
    weights: Weights,
    first: Ring<'_>,
    second: Ring<'_>,
    generator: &mut Xor128,
    reads: &mut Steps<Reads>,
) -> Result<Vec<VisitList>, NoMemory>
    requires parents { AreParents given.now first second }
    requires some { 0 < length first.order.now }
    requires other_some { 0 < length second.order.now }
    requires weights { IsWeighed weights }
    ensures child { IfOk result (λ r. r.items ≡ (model.child_by_draws given.now weights first.entry.routes.now second.entry.routes.now (length first.entry.order.now) (length second.entry.order.now) generator.old).value) }
    ensures state { OnOk result (generator.new ≡ (model.child_by_draws given.now weights first.entry.routes.now second.entry.routes.now (length first.entry.order.now) (length second.entry.order.now) generator.old).state) }
{
    let size = first.order.len() as u32;
    let other_size = second.order.len() as u32;
    let count = generator.below(size.min(other_size)) + 1;
    let start = generator.below(size);
    let rings = Rings {
        first,
        second,
        count,
    };
    let starts = Starts {
        first: start,
        second: start % other_size,
    };
    child_from(alloc, given, weights, rings, starts, reads)
}

/// The child of two plans (selective route exchange): as many neighbouring routes of each are selected, moved round until their clients
/// differ least; the second plan's take the places of the first one's in two ways, in each of which missing clients are then inserted
/// where they cost least; and the better plan is the child. Where one of the plans uses no vehicle it is the first plan, and nothing is
/// drawn; otherwise there are two draws.
///
/// Conditions: both plans are lawful, and no weight exceeds 10^9. Refused only where memory runs out; the two draws may then have been
/// made.
pub fn exchange(
    alloc: Global,
    given: &ProblemData,
    first: &Solution,
    second: &Solution,
    weights: Weights,
    generator: &mut Xor128,
    reads: &mut Steps<Reads>,
) -> Result<Solution, NoMemory>
    requires first { IsTrue (is_lawful given.now first.now.routes) }
    requires second { IsTrue (is_lawful given.now second.now.routes) }
    requires weights { IsWeighed weights }
    ensures child { IfOk result (λ r. r.routes ≡ (model.exchange given.now weights first.now.routes second.now.routes generator.old).value) }
    ensures state { OnOk result (generator.new ≡ (model.exchange given.now weights first.now.routes second.now.routes generator.old).state) }
    ensures lawful { IfOk result (λ r. IsTrue (is_lawful given.now r.routes)) }
{
    given.validity();
    exchange_is_lawful();
    let order = route_order(alloc, given, first.routes.items())?;
    let other_order = route_order(alloc, given, second.routes.items())?;
    if order.is_empty() || other_order.is_empty() {
        return first.copy(alloc);
    }
    let ring = Ring {
        routes: first.routes.items(),
        order: order.as_slice(),
    };
    let other_ring = Ring {
        routes: second.routes.items(),
        order: other_order.as_slice(),
    };
    let child = child_by_draws(alloc, given, weights, ring, other_ring, generator, reads)?;
    Ok(Solution {
        routes: RouteList::from_vec(child),
    })
}
