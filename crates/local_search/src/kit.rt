//! Calls of the operators of a kit.
ghost use Rattle.std.specs.Prelude.{◌≡◌, ◌<◌, ℕ, List, length, map, All, slice_index_or, None, OnOk, IfSome, Option};
ghost use Rattle.problem_data.specs.declared.problem.Problem.{Problem};
ghost use Rattle.problem_data.specs.Places.{vehicle_count};
ghost use Rattle.problem_data.specs.Reads.{OneMore};
ghost use Rattle.routing_model.specs.declared.weights.Weights.{Weights};
ghost use Rattle.routing_model.specs.Routes.{Routes, list_at};
ghost use Rattle.search_model.specs.Search.{kind_of as kind_of_candidate};
ghost use Rattle.gain_model.specs.Operators.{IsEvaluation};
ghost use Rattle.local_search.specs.Counts.{RoseTogether, all_applied, all_tried};
ghost use Rattle.local_search.specs.inside.Kits.{OneApplied, with_present_list, with_present_lists};

use crate::ask::{applied_one, changed_one, evaluate_one, prepare_one};
use move_core::{Candidate, Gain, Operator, Search};
use problem_data::{NoMemory, Reads, Steps};

/// Prepares each operator.
pub(crate) fn prepare_all(
    kit: &mut [Box<dyn Operator + Send>],
    search: &Search<'_>,
    reads: &mut Steps<Reads>,
) -> Result<(), NoMemory>
    ensures fits { OnOk result (All (λ b. fits b search.now.problem search.now.routes search.now.weights) kit.new) }
    ensures kinds { map kind_of kit.new ≡ map kind_of kit.old }
    ensures tallies { map tally_of kit.new ≡ map tally_of kit.old }
{
    for op in kit.iter_mut() {
        prepare_one(op, search, reads)?;
    }
    Ok(())
}

/// Tells each operator of a vehicle's list.
pub(crate) fn changed_all(
    kit: &mut [Box<dyn Operator + Send>],
    search: &Search<'_>,
    vehicle: u32,
    reads: &mut Steps<Reads>,
)
    requires vehicle { vehicle < vehicle_count search.now.problem }
    requires some { (routes : Routes) × ((length routes ≡ vehicle_count search.now.problem) × All (λ b. fits b search.now.problem routes search.now.weights) kit.old) }
    ensures fits { (routes : Routes) → All (λ b. fits b search.now.problem routes search.now.weights) kit.old → All (λ b. fits b search.now.problem (with_present_list search.now.routes vehicle routes) search.now.weights) kit.new }
    ensures kinds { map kind_of kit.new ≡ map kind_of kit.old }
    ensures tallies { map tally_of kit.new ≡ map tally_of kit.old }
{
    for op in kit.iter_mut() {
        changed_one(op, search, vehicle, reads);
    }
}

/// Tells each operator of the lists of one vehicle or two.
pub(crate) fn changed_both(
    kit: &mut [Box<dyn Operator + Send>],
    search: &Search<'_>,
    first: u32,
    second: Option<u32>,
    reads: &mut Steps<Reads>,
)
    requires first { first < vehicle_count search.now.problem }
    requires second { IfSome second (λ v. v < vehicle_count search.now.problem) }
    requires some { (routes : Routes) × ((length routes ≡ vehicle_count search.now.problem) × All (λ b. fits b search.now.problem routes search.now.weights) kit.old) }
    ensures fits { (routes : Routes) → All (λ b. fits b search.now.problem routes search.now.weights) kit.old → All (λ b. fits b search.now.problem (with_present_lists search.now.routes first second routes) search.now.weights) kit.new }
    ensures kinds { map kind_of kit.new ≡ map kind_of kit.old }
    ensures tallies { map tally_of kit.new ≡ map tally_of kit.old }
{
    changed_all(kit, search, first, reads);
    if let Some(second) = second {
        changed_all(kit, search, second, reads);
    }
}

/// Asks the operator at a place for a candidate of its kind: what it answers is found.
pub(crate) fn evaluate_at(
    kit: &mut [Box<dyn Operator + Send>],
    at: usize,
    search: &Search<'_>,
    candidate: Candidate,
    found: &mut Option<Gain>,
    reads: &mut Steps<Reads>,
)
    requires none { found.old ≡ None }
    requires at { at < length kit.old }
    requires fits { All (λ b. fits b search.now.problem search.now.routes search.now.weights) kit.old }
    requires kind { slice_index_or (map kind_of kit.old) at (kind_of_candidate candidate) ≡ kind_of_candidate candidate }
    ensures answer { IsEvaluation search.now.problem search.now.weights search.now.routes candidate found.new }
    ensures fits { All (λ b. fits b search.now.problem search.now.routes search.now.weights) kit.new }
    ensures kinds { map kind_of kit.new ≡ map kind_of kit.old }
    ensures tried { RoseTogether 1 (all_tried (map tally_of kit.old)) (all_tried (map tally_of kit.new)) }
    ensures applied { all_applied (map tally_of kit.new) ≡ all_applied (map tally_of kit.old) }
{
    evaluate_one(&mut kit[at], search, candidate, found, reads)
}

/// Counts an applied move of the operator at a place.
pub(crate) fn applied_at(kit: &mut [Box<dyn Operator + Send>], at: usize)
    requires at { at < length kit.old }
    ensures fits { (p : Problem) (routes : Routes) (w : Weights) → All (λ b. fits b p routes w) kit.old → All (λ b. fits b p routes w) kit.new }
    ensures kinds { map kind_of kit.new ≡ map kind_of kit.old }
    ensures tried { all_tried (map tally_of kit.new) ≡ all_tried (map tally_of kit.old) }
    ensures applied { OneApplied at (all_applied (map tally_of kit.old)) (all_applied (map tally_of kit.new)) }
{
    applied_one(&mut kit[at])
}
