//! Trying a candidate, and taking its move.
ghost use Rattle.std.specs.Prelude.{◌≡◌, ◌<◌, ◌+◌, ℕ, List, [], ◌∷◌, length, map, All, slice_index_or, true, OnOk, OnErr, IfSome, Option};
ghost use Rattle.std.specs.Option.{option_map};
ghost use Rattle.problem_data.specs.Places.{vehicle_count};
ghost use Rattle.search_model.specs.Search.{kind_of as kind_of_candidate};
ghost use Rattle.gain_model.specs.Gains.{GainSide, MayBeApplied, made};
ghost use Rattle.search_model.specs.Kinds.{all_kinds};
ghost use Rattle.descent_memory.specs.Touching.{renewed_all, touched_lists};
ghost use Rattle.local_search.specs.Counts.{all_applied, all_tried};
ghost use Rattle.local_search.specs.inside.Kits.{OneApplied};
ghost use Rattle.local_search.specs.inside.Stages.{IsStage, Stopped, TakesMove, Tried, stage_of};

use crate::kit::{applied_at, changed_both, evaluate_at};
use descent_memory::Memory;
use move_core::{Candidate, Gain, Operator, Search};
use problem_data::{NoMemory, Reads, Steps};

/// Touches the lists of one vehicle or two.
fn touch_lists(memory: &mut Memory, search: &Search<'_>, first: u32, second: Option<u32>)
    requires first { first < vehicle_count search.now.problem }
    requires second { IfSome second (λ v. v < vehicle_count search.now.problem) }
    requires lists { length memory.old.touches.lists ≡ vehicle_count search.now.problem }
    ensures { memory.new ≡ touched_lists search.now.routes first second memory.old }
{
    memory.touch(first, search.route(first).visits());
    if let Some(vehicle) = second {
        memory.touch(vehicle, search.route(vehicle).visits());
    }
}

/// Tells the memory of the least unused vehicle of each type.
fn renew_all(memory: &mut Memory, search: &Search<'_>)
    requires unused { length memory.old.unused ≡ length search.now.problem.types }
    requires types { length memory.old.touches.types ≡ length search.now.problem.types }
    ensures { memory.new ≡ renewed_all search.now.problem search.now.routes (length search.now.problem.types) memory.old }
{
    search.soundness();
    for vehicle_type in 0..memory.types() as u32 {
        memory.renew(vehicle_type as usize, search.unused(vehicle_type));
    }
}

/// Takes the move of a gain that the operator at a place gave: applies it, remembers it, and tells the operators.
#[cold]
#[inline(never)]
fn take(
    search: &mut Search<'_>,
    kit: &mut [Box<dyn Operator + Send>],
    memory: &mut Memory,
    at: usize,
    gain: Gain,
    reads: &mut Steps<Reads>,
) -> Result<(), NoMemory>
    requires at { at < length kit.old }
    requires gain { MayBeApplied search.old.problem search.old.weights search.old.routes gain }
    requires fits { All (λ b. fits b search.old.problem search.old.routes search.old.weights) kit.old }
    requires unused { length memory.old.unused ≡ length search.old.problem.types }
    requires types { length memory.old.touches.types ≡ length search.old.problem.types }
    requires lists { length memory.old.touches.lists ≡ vehicle_count search.old.problem }
    ensures search { OnOk result (search.new ≡ record search.old { routes = made gain search.old.routes }) }
    ensures memory { OnOk result (TakesMove search.old.problem search.old.routes (made gain search.old.routes) gain.first.vehicle (option_map (λ (side : GainSide). side.vehicle) gain.second) memory.old memory.new) }
    ensures fits { OnOk result (All (λ b. fits b search.new.problem search.new.routes search.new.weights) kit.new) }
    ensures tried { OnOk result (all_tried (map tally_of kit.new) ≡ all_tried (map tally_of kit.old)) }
    ensures applied { OnOk result (OneApplied at (all_applied (map tally_of kit.old)) (all_applied (map tally_of kit.new))) }
    ensures kinds { map kind_of kit.new ≡ map kind_of kit.old }
    ensures stopped { OnErr result (search.new ≡ search.old) }
{
    search.soundness();
    let (first, second) = gain.vehicles();
    memory.tick();
    touch_lists(memory, search, first, second);
    search.apply(gain, reads)?;
    touch_lists(memory, search, first, second);
    renew_all(memory, search);
    applied_at(kit, at);
    changed_both(kit, search, first, second, reads);
    Ok(())
}

/// Tries a candidate of the kind at a place: its move is taken where the cost falls.
pub(crate) fn try_candidate(
    search: &mut Search<'_>,
    kit: &mut [Box<dyn Operator + Send>],
    memory: &mut Memory,
    at: usize,
    candidate: Candidate,
    reads: &mut Steps<Reads>,
) -> Result<(), NoMemory>
    requires at { at < 18 }
    requires kind { slice_index_or all_kinds at (kind_of_candidate candidate) ≡ kind_of_candidate candidate }
    requires kinds { map kind_of kit.old ≡ all_kinds }
    requires fits { All (λ b. fits b search.old.problem search.old.routes search.old.weights) kit.old }
    requires stage { IsStage search.old.problem search.old.weights (stage_of search.old memory.old (map tally_of kit.old)) }
    ensures tried { OnOk result (Tried search.old.problem search.old.weights all_kinds true (candidate ∷ []) (stage_of search.old memory.old (map tally_of kit.old)) (stage_of search.new memory.new (map tally_of kit.new))) }
    ensures moments { OnOk result (memory.new.moments ≡ memory.old.moments) }
    ensures fits { OnOk result (All (λ b. fits b search.new.problem search.new.routes search.new.weights) kit.new) }
    ensures kinds { map kind_of kit.new ≡ all_kinds }
    ensures stopped { OnErr result (Stopped search.old.problem search.old.weights (candidate ∷ []) search.old search.new) }
{
    memory.count();
    let mut found = None;
    evaluate_at(kit, at, search, candidate, &mut found, reads);
    match found {
        Some(gain) => {
            take(search, kit, memory, at, gain, reads)?;
            Ok(())
        }
        None => Ok(()),
    }
}
