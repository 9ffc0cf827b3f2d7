//! Calls of one boxed operator.
ghost use Rattle.std.specs.Prelude.{◌≡◌, ◌<◌, None, OnOk};
ghost use Rattle.problem_data.specs.declared.problem.Problem.{Problem};
ghost use Rattle.problem_data.specs.Places.{vehicle_count};
ghost use Rattle.problem_data.specs.Reads.{OneMore, RoseAtMost};
ghost use Rattle.routing_model.specs.declared.weights.Weights.{Weights};
ghost use Rattle.routing_model.specs.Routes.{Routes, list_at};
ghost use Rattle.search_model.specs.Search.{kind_of as kind_of_candidate};
ghost use Rattle.gain_model.specs.DescentReads.{changed_reads, prepare_reads};
ghost use Rattle.gain_model.specs.Operators.{FollowsChange, IsEvaluation};
ghost use Rattle.move_core.specs.Operators.{FitsSome, operator_reads};

use move_core::{Candidate, Gain, Operator, Search};
use problem_data::{NoMemory, Reads, Steps};

/// Prepares an operator.
pub(crate) fn prepare_one(
    op: &mut Box<dyn Operator + Send>,
    search: &Search<'_>,
    reads: &mut Steps<Reads>,
) -> Result<(), NoMemory>
    ensures fits { OnOk result (fits op.new search.now.problem search.now.routes search.now.weights) }
    ensures kind { kind_of op.new ≡ kind_of op.old }
    ensures tally { tally_of op.new ≡ tally_of op.old }
    ensures reads { RoseAtMost (prepare_reads search.now.problem search.now.routes (kind_of op.old)) reads.old reads.new }
{
    op.prepare(search, reads)
}

/// Asks an operator for a candidate: what it answers is found. Nothing large is copied where that is none.
pub(crate) fn evaluate_one(
    op: &mut Box<dyn Operator + Send>,
    search: &Search<'_>,
    candidate: Candidate,
    found: &mut Option<Gain>,
    reads: &mut Steps<Reads>,
)
    requires none { found.old ≡ None }
    requires fits { fits op.old search.now.problem search.now.routes search.now.weights }
    requires kind { kind_of_candidate candidate ≡ kind_of op.old }
    ensures answer { IsEvaluation search.now.problem search.now.weights search.now.routes candidate found.new }
    ensures fits { fits op.new search.now.problem search.now.routes search.now.weights }
    ensures kind { kind_of op.new ≡ kind_of op.old }
    ensures tried { OneMore (tally_of op.old).tried (tally_of op.new).tried }
    ensures applied { (tally_of op.new).applied ≡ (tally_of op.old).applied }
    ensures reads { RoseAtMost (operator_reads search.now.problem search.now.routes candidate) reads.old reads.new }
{
    match op.evaluate(search, candidate, reads) {
        Some(gain) => *found = Some(gain),
        None => {}
    }
}

/// Tells an operator of a vehicle's list.
pub(crate) fn changed_one(
    op: &mut Box<dyn Operator + Send>,
    search: &Search<'_>,
    vehicle: u32,
    reads: &mut Steps<Reads>,
)
    requires vehicle { vehicle < vehicle_count search.now.problem }
    requires some { FitsSome (fits op.old) search.now.problem search.now.weights }
    ensures fits { FollowsChange (fits op.old) (fits op.new) search.now.problem search.now.weights vehicle (list_at search.now.routes vehicle) }
    ensures kind { kind_of op.new ≡ kind_of op.old }
    ensures tally { tally_of op.new ≡ tally_of op.old }
    ensures reads { RoseAtMost (changed_reads search.now.problem search.now.routes (kind_of op.old) vehicle) reads.old reads.new }
{
    op.changed(search, vehicle, reads)
}

/// Counts an applied move of an operator.
pub(crate) fn applied_one(op: &mut Box<dyn Operator + Send>)
    ensures fits { (p : Problem) (routes : Routes) (w : Weights) → fits op.old p routes w → fits op.new p routes w }
    ensures kind { kind_of op.new ≡ kind_of op.old }
    ensures tried { (tally_of op.new).tried ≡ (tally_of op.old).tried }
    ensures applied { OneMore (tally_of op.old).applied (tally_of op.new).applied }
{
    op.applied()
}
