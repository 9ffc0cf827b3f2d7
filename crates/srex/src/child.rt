//! The child of an exchange.
ghost use Rattle.std.specs.Prelude.{◌≡◌, IfOk};
ghost use Rattle.penalty_cost.specs.Plans.{IsWeighed};
ghost use Rattle.genetic_model.specs.RouteExchange.{child_of_exchange};
ghost use Rattle.genetic_model.proofs.SoundChildren.{IsExchange, IsSound};
ghost use Rattle.exchange_children.specs.Exchanges.{IsExchanged, exchange_of};

use exchange_children::Exchanged;
use least_insertions::completed;
use penalty_cost::routes_cost;
use problem_data::{NoMemory, ProblemData, Reads, Steps, VisitList};
use routing_model::Weights;
use std::alloc::Global;

/// The better of the two children of an exchange, each with its missing clients inserted: the one of lower cost, the first on a tie.
pub(crate) fn child_of(
    alloc: Global,
    given: &ProblemData,
    weights: Weights,
    exchanged: Exchanged<'_>,
    reads: &mut Steps<Reads>,
) -> Result<Vec<VisitList>, NoMemory>
    requires exchanged { IsExchanged given.now exchanged }
    requires parent { IsSound given.now exchanged.parent.now }
    requires other { IsSound given.now exchanged.other.now }
    requires fair { IsExchange exchanged.other.now (exchange_of exchanged) }
    requires weights { IsWeighed weights }
    ensures { IfOk result (λ r. r.items ≡ child_of_exchange given.now weights exchanged.entry.parent.now exchanged.entry.other.now (exchange_of exchanged.entry)) }
{
    given.validity();
    let child = exchanged.first_child(alloc, given)?;
    let first = completed(alloc, given, weights, child, reads)?;
    let other_child = exchanged.second_child(alloc, given)?;
    let second = completed(alloc, given, weights, other_child, reads)?;
    let first_cost = routes_cost(given, first.as_slice(), weights, reads);
    let second_cost = routes_cost(given, second.as_slice(), weights, reads);
    if second_cost < first_cost {
        Ok(second)
    } else {
        Ok(first)
    }
}
