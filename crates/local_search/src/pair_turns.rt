//! Turns of pairs of vehicles.
ghost use Rattle.std.specs.Prelude.{◌≡◌, ◌<◌, [], ◌∷◌, map, All, true, OnOk, OnErr};
ghost use Rattle.problem_data.specs.Places.{vehicle_count};
ghost use Rattle.search_model.specs.declared.candidate.Candidate.TheVariants.{Routes as Pair};
ghost use Rattle.search_model.specs.Candidates.{vehicle_candidates};
ghost use Rattle.search_model.specs.Kinds.{all_kinds};
ghost use Rattle.descent_memory.specs.Pairs.{pair_place, pairs_before};
ghost use Rattle.local_search.specs.inside.Stages.{IsStage, KeepsPairs, Stopped, Tried, stage_of};
ghost use Rattle.local_search.specs.inside.Turns.{all_pair_candidates, kind_at, pair_candidates};

use crate::kinds::kind_at;
use crate::moves::try_candidate;
use crate::screens::is_pair_untouched;
use descent_memory::Memory;
use move_core::{Candidate, Operator, Search};
use problem_data::{NoMemory, Reads, Steps};

/// Tries the kind at a place of the kit for a pair of vehicles.
fn try_pair(
    search: &mut Search<'_>,
    kit: &mut [Box<dyn Operator + Send>],
    memory: &mut Memory,
    at: usize,
    first: u32,
    second: u32,
    reads: &mut Steps<Reads>,
) -> Result<(), NoMemory>
    requires at { at < 18 }
    requires kinds { map kind_of kit.old ≡ all_kinds }
    requires fits { All (λ b. fits b search.old.problem search.old.routes search.old.weights) kit.old }
    requires stage { IsStage search.old.problem search.old.weights (stage_of search.old memory.old (map tally_of kit.old)) }
    ensures tried { OnOk result (Tried search.old.problem search.old.weights all_kinds true (Pair (kind_at at) first second ∷ []) (stage_of search.old memory.old (map tally_of kit.old)) (stage_of search.new memory.new (map tally_of kit.new))) }
    ensures moments { OnOk result (memory.new.moments ≡ memory.old.moments) }
    ensures fits { OnOk result (All (λ b. fits b search.new.problem search.new.routes search.new.weights) kit.new) }
    ensures kinds { map kind_of kit.new ≡ all_kinds }
    ensures stopped { OnErr result (Stopped search.old.problem search.old.weights (Pair (kind_at at) first second ∷ []) search.old search.new) }
{
    let candidate = Candidate::Routes {
        kind: kind_at(at),
        first,
        second,
    };
    try_candidate(search, kit, memory, at, candidate, reads)?;
    Ok(())
}

/// The turn of a pair of vehicles, which stands at a place among all pairs: their lists change places, and clients of them do; in a later
/// pass only where something of the two was touched since the pair's last turn.
fn pair_turn(
    search: &mut Search<'_>,
    kit: &mut [Box<dyn Operator + Send>],
    memory: &mut Memory,
    each: bool,
    place: usize,
    first: u32,
    second: u32,
    reads: &mut Steps<Reads>,
) -> Result<(), NoMemory>
    requires order { first < second }
    requires second { second < vehicle_count search.old.problem }
    requires place { place ≡ pair_place (vehicle_count search.old.problem) first second }
    requires kinds { map kind_of kit.old ≡ all_kinds }
    requires fits { All (λ b. fits b search.old.problem search.old.routes search.old.weights) kit.old }
    requires stage { IsStage search.old.problem search.old.weights (stage_of search.old memory.old (map tally_of kit.old)) }
    requires pairs { KeepsPairs search.old.problem search.old.weights (stage_of search.old memory.old (map tally_of kit.old)) }
    ensures tried { OnOk result (Tried search.old.problem search.old.weights all_kinds each (pair_candidates first second) (stage_of search.old memory.old (map tally_of kit.old)) (stage_of search.new memory.new (map tally_of kit.new))) }
    ensures pairs { OnOk result (KeepsPairs search.old.problem search.old.weights (stage_of search.new memory.new (map tally_of kit.new))) }
    ensures moments { OnOk result (memory.new.moments.clients ≡ memory.old.moments.clients) }
    ensures fits { OnOk result (All (λ b. fits b search.new.problem search.new.routes search.new.weights) kit.new) }
    ensures kinds { map kind_of kit.new ≡ all_kinds }
    ensures stopped { OnErr result (Stopped search.old.problem search.old.weights (pair_candidates first second) search.old search.new) }
{
    if !each && is_pair_untouched(search, memory, place, first, second) {
        return Ok(());
    }
    let moment = memory.moment();
    try_pair(search, kit, memory, 16, first, second, reads)?;
    try_pair(search, kit, memory, 17, first, second, reads)?;
    memory.finish_pair(place, moment);
    Ok(())
}

/// The turns of a vehicle with each later one, whose pairs stand from a place on.
fn row_turn(
    search: &mut Search<'_>,
    kit: &mut [Box<dyn Operator + Send>],
    memory: &mut Memory,
    each: bool,
    row: usize,
    first: u32,
    reads: &mut Steps<Reads>,
) -> Result<(), NoMemory>
    requires first { first < vehicle_count search.old.problem }
    requires row { row ≡ pairs_before (vehicle_count search.old.problem) first }
    requires kinds { map kind_of kit.old ≡ all_kinds }
    requires fits { All (λ b. fits b search.old.problem search.old.routes search.old.weights) kit.old }
    requires stage { IsStage search.old.problem search.old.weights (stage_of search.old memory.old (map tally_of kit.old)) }
    requires pairs { KeepsPairs search.old.problem search.old.weights (stage_of search.old memory.old (map tally_of kit.old)) }
    ensures tried { OnOk result (Tried search.old.problem search.old.weights all_kinds each (vehicle_candidates (vehicle_count search.old.problem) first) (stage_of search.old memory.old (map tally_of kit.old)) (stage_of search.new memory.new (map tally_of kit.new))) }
    ensures pairs { OnOk result (KeepsPairs search.old.problem search.old.weights (stage_of search.new memory.new (map tally_of kit.new))) }
    ensures moments { OnOk result (memory.new.moments.clients ≡ memory.old.moments.clients) }
    ensures fits { OnOk result (All (λ b. fits b search.new.problem search.new.routes search.new.weights) kit.new) }
    ensures kinds { map kind_of kit.new ≡ all_kinds }
    ensures stopped { OnErr result (Stopped search.old.problem search.old.weights (vehicle_candidates (vehicle_count search.old.problem) first) search.old search.new) }
{
    let vehicles = search.data().vehicles();
    for second in first + 1..vehicles {
        let place = row + (second - first - 1) as usize;
        pair_turn(search, kit, memory, each, place, first, second, reads)?;
    }
    Ok(())
}

/// The turns of all pairs of vehicles.
pub(crate) fn pair_turns(
    search: &mut Search<'_>,
    kit: &mut [Box<dyn Operator + Send>],
    memory: &mut Memory,
    each: bool,
    reads: &mut Steps<Reads>,
) -> Result<(), NoMemory>
    requires kinds { map kind_of kit.old ≡ all_kinds }
    requires fits { All (λ b. fits b search.old.problem search.old.routes search.old.weights) kit.old }
    requires stage { IsStage search.old.problem search.old.weights (stage_of search.old memory.old (map tally_of kit.old)) }
    requires pairs { KeepsPairs search.old.problem search.old.weights (stage_of search.old memory.old (map tally_of kit.old)) }
    ensures tried { OnOk result (Tried search.old.problem search.old.weights all_kinds each (all_pair_candidates search.old.problem) (stage_of search.old memory.old (map tally_of kit.old)) (stage_of search.new memory.new (map tally_of kit.new))) }
    ensures pairs { OnOk result (KeepsPairs search.old.problem search.old.weights (stage_of search.new memory.new (map tally_of kit.new))) }
    ensures moments { OnOk result (memory.new.moments.clients ≡ memory.old.moments.clients) }
    ensures fits { OnOk result (All (λ b. fits b search.new.problem search.new.routes search.new.weights) kit.new) }
    ensures kinds { map kind_of kit.new ≡ all_kinds }
    ensures stopped { OnErr result (Stopped search.old.problem search.old.weights (all_pair_candidates search.old.problem) search.old search.new) }
{
    let vehicles = search.data().vehicles();
    let mut row = 0;
    for first in 0..vehicles {
        row_turn(search, kit, memory, each, row, first, reads)?;
        row += (vehicles - first - 1) as usize;
    }
    Ok(())
}
