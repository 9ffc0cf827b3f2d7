//! Trying each kind of the kit for a client and a neighbour.
ghost use Rattle.std.specs.Prelude.{◌≡◌, ◌<◌, List, [], ◌∷◌, map, All, slice_index, OnOk, OnErr};
ghost use Rattle.problem_data.specs.Places.{place_count};
ghost use Rattle.search_model.specs.declared.candidate.Candidate.TheVariants.{Node};
ghost use Rattle.search_model.specs.declared.candidate.Target.TheVariants.{After, StartOf};
ghost use Rattle.search_model.specs.Candidates.{neighbour_candidates};
ghost use Rattle.search_model.specs.Kinds.{all_kinds};
ghost use Rattle.local_search.specs.inside.Stages.{IsStage, RestsSince, Stopped, Tried, stage_of};
ghost use Rattle.local_search.specs.inside.Turns.{kind_at, kind_candidates, moving_candidates, putting_candidates};

use crate::kinds::kind_at;
use crate::moves::try_candidate;
use crate::screens::{is_first, is_visited};
use descent_memory::Memory;
use exchange_screens::look;
use move_core::{Candidate, Operator, Search, Target};
use problem_data::{NoMemory, Reads, Steps};

/// Tries the kind at a place of the kit for a client behind a neighbour; in a later pass only where that isn't known to give nothing.
fn try_behind(
    search: &mut Search<'_>,
    kit: &mut [Box<dyn Operator + Send>],
    memory: &mut Memory,
    each: bool,
    at: usize,
    client: u32,
    neighbour: u32,
    reads: &mut Steps<Reads>,
) -> Result<(), NoMemory>
    requires at { at < 18 }
    requires kinds { map kind_of kit.old ≡ all_kinds }
    requires fits { All (λ b. fits b search.old.problem search.old.routes search.old.weights) kit.old }
    requires stage { IsStage search.old.problem search.old.weights (stage_of search.old memory.old (map tally_of kit.old)) }
    ensures tried { OnOk result (Tried search.old.problem search.old.weights all_kinds each (Node (kind_at at) client (After neighbour) ∷ []) (stage_of search.old memory.old (map tally_of kit.old)) (stage_of search.new memory.new (map tally_of kit.new))) }
    ensures moments { OnOk result (memory.new.moments ≡ memory.old.moments) }
    ensures fits { OnOk result (All (λ b. fits b search.new.problem search.new.routes search.new.weights) kit.new) }
    ensures kinds { map kind_of kit.new ≡ all_kinds }
    ensures stopped { OnErr result (Stopped search.old.problem search.old.weights (Node (kind_at at) client (After neighbour) ∷ []) search.old search.new) }
{
    let kind = kind_at(at);
    if !each && search.is_hopeless(kind, client, neighbour) {
        return Ok(());
    }
    let candidate = Candidate::Node {
        kind,
        client,
        target: Target::After(neighbour),
    };
    try_candidate(search, kit, memory, at, candidate, reads)?;
    Ok(())
}

/// Tries the kind at a place of the kit for a client at the start before a neighbour; in a later pass only where the neighbour stands
/// first.
fn try_before(
    search: &mut Search<'_>,
    kit: &mut [Box<dyn Operator + Send>],
    memory: &mut Memory,
    each: bool,
    at: usize,
    client: u32,
    neighbour: u32,
    reads: &mut Steps<Reads>,
) -> Result<(), NoMemory>
    requires at { at < 18 }
    requires kinds { map kind_of kit.old ≡ all_kinds }
    requires fits { All (λ b. fits b search.old.problem search.old.routes search.old.weights) kit.old }
    requires stage { IsStage search.old.problem search.old.weights (stage_of search.old memory.old (map tally_of kit.old)) }
    ensures tried { OnOk result (Tried search.old.problem search.old.weights all_kinds each (Node (kind_at at) client (StartOf neighbour) ∷ []) (stage_of search.old memory.old (map tally_of kit.old)) (stage_of search.new memory.new (map tally_of kit.new))) }
    ensures moments { OnOk result (memory.new.moments ≡ memory.old.moments) }
    ensures fits { OnOk result (All (λ b. fits b search.new.problem search.new.routes search.new.weights) kit.new) }
    ensures kinds { map kind_of kit.new ≡ all_kinds }
    ensures stopped { OnErr result (Stopped search.old.problem search.old.weights (Node (kind_at at) client (StartOf neighbour) ∷ []) search.old search.new) }
{
    let kind = kind_at(at);
    if !each && !is_first(search, neighbour) {
        return Ok(());
    }
    let candidate = Candidate::Node {
        kind,
        client,
        target: Target::StartOf(neighbour),
    };
    try_candidate(search, kit, memory, at, candidate, reads)?;
    Ok(())
}

/// Tries the kind at a place of the kit for a client and a neighbour.
fn try_kind(
    search: &mut Search<'_>,
    kit: &mut [Box<dyn Operator + Send>],
    memory: &mut Memory,
    each: bool,
    at: usize,
    client: u32,
    neighbour: u32,
    reads: &mut Steps<Reads>,
) -> Result<(), NoMemory>
    requires at { at < 18 }
    requires kinds { map kind_of kit.old ≡ all_kinds }
    requires fits { All (λ b. fits b search.old.problem search.old.routes search.old.weights) kit.old }
    requires stage { IsStage search.old.problem search.old.weights (stage_of search.old memory.old (map tally_of kit.old)) }
    ensures tried { OnOk result (Tried search.old.problem search.old.weights all_kinds each (kind_candidates client neighbour at) (stage_of search.old memory.old (map tally_of kit.old)) (stage_of search.new memory.new (map tally_of kit.new))) }
    ensures moments { OnOk result (memory.new.moments ≡ memory.old.moments) }
    ensures fits { OnOk result (All (λ b. fits b search.new.problem search.new.routes search.new.weights) kit.new) }
    ensures kinds { map kind_of kit.new ≡ all_kinds }
    ensures stopped { OnErr result (Stopped search.old.problem search.old.weights (kind_candidates client neighbour at) search.old search.new) }
{
    try_behind(search, kit, memory, each, at, client, neighbour, reads)?;
    try_before(search, kit, memory, each, at, client, neighbour, reads)?;
    Ok(())
}

/// Tries each kind that moves a visited client, for a client and a neighbour; in a later pass those that aren't known to give nothing.
fn try_moves(
    search: &mut Search<'_>,
    kit: &mut [Box<dyn Operator + Send>],
    memory: &mut Memory,
    each: bool,
    client: u32,
    neighbour: u32,
    reads: &mut Steps<Reads>,
) -> Result<(), NoMemory>
    requires kinds { map kind_of kit.old ≡ all_kinds }
    requires fits { All (λ b. fits b search.old.problem search.old.routes search.old.weights) kit.old }
    requires stage { IsStage search.old.problem search.old.weights (stage_of search.old memory.old (map tally_of kit.old)) }
    ensures tried { OnOk result (Tried search.old.problem search.old.weights all_kinds each (moving_candidates client neighbour) (stage_of search.old memory.old (map tally_of kit.old)) (stage_of search.new memory.new (map tally_of kit.new))) }
    ensures moments { OnOk result (memory.new.moments ≡ memory.old.moments) }
    ensures fits { OnOk result (All (λ b. fits b search.new.problem search.new.routes search.new.weights) kit.new) }
    ensures kinds { map kind_of kit.new ≡ all_kinds }
    ensures stopped { OnErr result (Stopped search.old.problem search.old.weights (moving_candidates client neighbour) search.old search.new) }
{
    for at in 0..12 {
        try_kind(search, kit, memory, each, at, client, neighbour, reads)?;
    }
    Ok(())
}

/// Moves a visited client to a neighbour, if that pays; in a later pass it is tried only where one of the two was touched since the client's
/// last turn, and those kinds that a look doesn't tell to give nothing.
fn try_moving(
    search: &mut Search<'_>,
    kit: &mut [Box<dyn Operator + Send>],
    memory: &mut Memory,
    each: bool,
    client: u32,
    neighbour: u32,
    reads: &mut Steps<Reads>,
) -> Result<(), NoMemory>
    requires client { client < place_count search.old.problem }
    requires neighbour { neighbour < place_count search.old.problem }
    requires kinds { map kind_of kit.old ≡ all_kinds }
    requires fits { All (λ b. fits b search.old.problem search.old.routes search.old.weights) kit.old }
    requires stage { IsStage search.old.problem search.old.weights (stage_of search.old memory.old (map tally_of kit.old)) }
    requires rests { RestsSince search.old.problem search.old.weights (slice_index memory.old.moments.clients client) (moving_candidates client neighbour) (stage_of search.old memory.old (map tally_of kit.old)) }
    ensures tried { OnOk result (Tried search.old.problem search.old.weights all_kinds each (moving_candidates client neighbour) (stage_of search.old memory.old (map tally_of kit.old)) (stage_of search.new memory.new (map tally_of kit.new))) }
    ensures moments { OnOk result (memory.new.moments ≡ memory.old.moments) }
    ensures fits { OnOk result (All (λ b. fits b search.new.problem search.new.routes search.new.weights) kit.new) }
    ensures kinds { map kind_of kit.new ≡ all_kinds }
    ensures stopped { OnErr result (Stopped search.old.problem search.old.weights (moving_candidates client neighbour) search.old search.new) }
{
    if !each && memory.is_neighbour_untouched(client, neighbour) {
        return Ok(());
    }
    look(search, client, neighbour, reads);
    try_moves(search, kit, memory, each, client, neighbour, reads)?;
    Ok(())
}

/// Puts in a client that isn't visited beside a neighbour or in its place, if that pays; in a later pass it isn't tried with one that
/// is visited.
fn try_putting(
    search: &mut Search<'_>,
    kit: &mut [Box<dyn Operator + Send>],
    memory: &mut Memory,
    each: bool,
    client: u32,
    neighbour: u32,
    reads: &mut Steps<Reads>,
) -> Result<(), NoMemory>
    requires kinds { map kind_of kit.old ≡ all_kinds }
    requires fits { All (λ b. fits b search.old.problem search.old.routes search.old.weights) kit.old }
    requires stage { IsStage search.old.problem search.old.weights (stage_of search.old memory.old (map tally_of kit.old)) }
    ensures tried { OnOk result (Tried search.old.problem search.old.weights all_kinds each (putting_candidates client neighbour) (stage_of search.old memory.old (map tally_of kit.old)) (stage_of search.new memory.new (map tally_of kit.new))) }
    ensures moments { OnOk result (memory.new.moments ≡ memory.old.moments) }
    ensures fits { OnOk result (All (λ b. fits b search.new.problem search.new.routes search.new.weights) kit.new) }
    ensures kinds { map kind_of kit.new ≡ all_kinds }
    ensures stopped { OnErr result (Stopped search.old.problem search.old.weights (putting_candidates client neighbour) search.old search.new) }
{
    if !each && is_visited(search, client) {
        return Ok(());
    }
    try_kind(search, kit, memory, each, 13, client, neighbour, reads)?;
    try_kind(search, kit, memory, each, 15, client, neighbour, reads)?;
    Ok(())
}

/// Tries each kind for a client and a neighbour.
pub(crate) fn try_neighbour(
    search: &mut Search<'_>,
    kit: &mut [Box<dyn Operator + Send>],
    memory: &mut Memory,
    each: bool,
    client: u32,
    neighbour: u32,
    reads: &mut Steps<Reads>,
) -> Result<(), NoMemory>
    requires client { client < place_count search.old.problem }
    requires neighbour { neighbour < place_count search.old.problem }
    requires kinds { map kind_of kit.old ≡ all_kinds }
    requires fits { All (λ b. fits b search.old.problem search.old.routes search.old.weights) kit.old }
    requires stage { IsStage search.old.problem search.old.weights (stage_of search.old memory.old (map tally_of kit.old)) }
    requires rests { RestsSince search.old.problem search.old.weights (slice_index memory.old.moments.clients client) (moving_candidates client neighbour) (stage_of search.old memory.old (map tally_of kit.old)) }
    ensures tried { OnOk result (Tried search.old.problem search.old.weights all_kinds each (neighbour_candidates client neighbour) (stage_of search.old memory.old (map tally_of kit.old)) (stage_of search.new memory.new (map tally_of kit.new))) }
    ensures moments { OnOk result (memory.new.moments ≡ memory.old.moments) }
    ensures fits { OnOk result (All (λ b. fits b search.new.problem search.new.routes search.new.weights) kit.new) }
    ensures kinds { map kind_of kit.new ≡ all_kinds }
    ensures stopped { OnErr result (Stopped search.old.problem search.old.weights (neighbour_candidates client neighbour) search.old search.new) }
{
    try_moving(search, kit, memory, each, client, neighbour, reads)?;
    try_putting(search, kit, memory, each, client, neighbour, reads)?;
    Ok(())
}
