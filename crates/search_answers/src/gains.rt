//! The gain of a candidate, by an operator of its kind that has seen nothing else.
ghost use Rattle.std.specs.Prelude.{◌≡◌, IfOk};
ghost use Rattle.search_model.specs.Search.{kind_of as kind_of_candidate};
ghost use Rattle.gain_model.specs.Operators.{IsEvaluation};

use depot_moves::{DepotAfter, DepotBefore};
use group_moves::{Insert, Remove, Replace};
use move_core::{Candidate, Gain, Kind, Operator, Search};
use node_moves::{Exchange, RemoveDepot, SwapTails};
use problem_data::{NoMemory, Reads, Steps};
use route_moves::{SwapRoutes, SwapStar};
use std::alloc::Global;

/// The kind of a candidate.
fn kind_of(candidate: Candidate) -> Kind
    ensures { result ≡ kind_of_candidate candidate }
{
    match candidate {
        Candidate::Node { kind, .. } => kind,
        Candidate::Solo { kind, .. } => kind,
        Candidate::Routes { kind, .. } => kind,
    }
}

/// The gain of a candidate by an operator of its kind, where the move lowers the cost.
fn gain_by<O: Operator>(
    mut operator: O,
    search: &Search<'_>,
    candidate: Candidate,
    reads: &mut Steps<Reads>,
) -> Result<Option<Gain>, NoMemory>
    requires { kind_of_candidate candidate ≡ O.kind_of operator }
    ensures { IfOk result (λ found. IsEvaluation search.now.problem search.now.weights search.now.routes candidate found) }
{
    operator.prepare(search, reads)?;
    Ok(operator.evaluate(search, candidate, reads))
}

/// The gain of a candidate, where its move lowers the cost.
pub(crate) fn gain_of(
    alloc: Global,
    search: &Search<'_>,
    candidate: Candidate,
    reads: &mut Steps<Reads>,
) -> Result<Option<Gain>, NoMemory>
    ensures { IfOk result (λ found. IsEvaluation search.now.problem search.now.weights search.now.routes candidate found) }
{
    match kind_of(candidate) {
        Kind::Exchange10 => gain_by(Exchange::new(1, 0), search, candidate, reads),
        Kind::Exchange20 => gain_by(Exchange::new(2, 0), search, candidate, reads),
        Kind::Exchange30 => gain_by(Exchange::new(3, 0), search, candidate, reads),
        Kind::Exchange11 => gain_by(Exchange::new(1, 1), search, candidate, reads),
        Kind::Exchange21 => gain_by(Exchange::new(2, 1), search, candidate, reads),
        Kind::Exchange31 => gain_by(Exchange::new(3, 1), search, candidate, reads),
        Kind::Exchange22 => gain_by(Exchange::new(2, 2), search, candidate, reads),
        Kind::Exchange32 => gain_by(Exchange::new(3, 2), search, candidate, reads),
        Kind::Exchange33 => gain_by(Exchange::new(3, 3), search, candidate, reads),
        Kind::SwapTails => gain_by(SwapTails::new(), search, candidate, reads),
        Kind::DepotBefore => gain_by(DepotBefore::new(), search, candidate, reads),
        Kind::DepotAfter => gain_by(DepotAfter::new(), search, candidate, reads),
        Kind::RemoveDepot => gain_by(RemoveDepot::new(), search, candidate, reads),
        Kind::Insert => gain_by(Insert::new(), search, candidate, reads),
        Kind::Remove => gain_by(Remove::new(), search, candidate, reads),
        Kind::Replace => gain_by(Replace::new(), search, candidate, reads),
        Kind::SwapRoutes => gain_by(SwapRoutes::new(), search, candidate, reads),
        Kind::SwapStar => gain_by(SwapStar::new(alloc), search, candidate, reads),
    }
}
