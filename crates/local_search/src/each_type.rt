//! Trying each kind of the kit for a client and a vehicle type.
ghost use Rattle.std.specs.Prelude.{◌≡◌, ◌<◌, length, map, All, true, slice_index, OnOk, OnErr};
ghost use Rattle.problem_data.specs.Places.{place_count};
ghost use Rattle.search_model.specs.Candidates.{unused_candidates};
ghost use Rattle.search_model.specs.Kinds.{all_kinds};
ghost use Rattle.local_search.specs.inside.Stages.{IsStage, RestsSince, Stopped, Tried, stage_of};
ghost use Rattle.local_search.specs.inside.Turns.{empty_candidates, leaving_candidates};

use crate::kinds::kind_at;
use crate::moves::try_candidate;
use crate::screens::is_visited;
use descent_memory::Memory;
use move_core::{Candidate, Operator, Search, Target};
use problem_data::{NoMemory, Reads, Steps};

/// Tries the kind at a place of the kit for a client and the least unused vehicle of a type.
fn try_empty(
    search: &mut Search<'_>,
    kit: &mut [Box<dyn Operator + Send>],
    memory: &mut Memory,
    at: usize,
    client: u32,
    vehicle_type: u32,
    reads: &mut Steps<Reads>,
) -> Result<(), NoMemory>
    requires at { at < 18 }
    requires kinds { map kind_of kit.old ≡ all_kinds }
    requires fits { All (λ b. fits b search.old.problem search.old.routes search.old.weights) kit.old }
    requires stage { IsStage search.old.problem search.old.weights (stage_of search.old memory.old (map tally_of kit.old)) }
    ensures tried { OnOk result (Tried search.old.problem search.old.weights all_kinds true (empty_candidates client vehicle_type at) (stage_of search.old memory.old (map tally_of kit.old)) (stage_of search.new memory.new (map tally_of kit.new))) }
    ensures moments { OnOk result (memory.new.moments ≡ memory.old.moments) }
    ensures fits { OnOk result (All (λ b. fits b search.new.problem search.new.routes search.new.weights) kit.new) }
    ensures kinds { map kind_of kit.new ≡ all_kinds }
    ensures stopped { OnErr result (Stopped search.old.problem search.old.weights (empty_candidates client vehicle_type at) search.old search.new) }
{
    let candidate = Candidate::Node {
        kind: kind_at(at),
        client,
        target: Target::Empty(vehicle_type),
    };
    try_candidate(search, kit, memory, at, candidate, reads)?;
    Ok(())
}

/// Tries each kind that moves a visited client, for a client and the least unused vehicle of a type.
fn try_each_empty(
    search: &mut Search<'_>,
    kit: &mut [Box<dyn Operator + Send>],
    memory: &mut Memory,
    client: u32,
    vehicle_type: u32,
    reads: &mut Steps<Reads>,
) -> Result<(), NoMemory>
    requires kinds { map kind_of kit.old ≡ all_kinds }
    requires fits { All (λ b. fits b search.old.problem search.old.routes search.old.weights) kit.old }
    requires stage { IsStage search.old.problem search.old.weights (stage_of search.old memory.old (map tally_of kit.old)) }
    ensures tried { OnOk result (Tried search.old.problem search.old.weights all_kinds true (leaving_candidates client vehicle_type) (stage_of search.old memory.old (map tally_of kit.old)) (stage_of search.new memory.new (map tally_of kit.new))) }
    ensures moments { OnOk result (memory.new.moments ≡ memory.old.moments) }
    ensures fits { OnOk result (All (λ b. fits b search.new.problem search.new.routes search.new.weights) kit.new) }
    ensures kinds { map kind_of kit.new ≡ all_kinds }
    ensures stopped { OnErr result (Stopped search.old.problem search.old.weights (leaving_candidates client vehicle_type) search.old search.new) }
{
    for at in 0..12 {
        try_empty(search, kit, memory, at, client, vehicle_type, reads)?;
    }
    Ok(())
}

/// Moves a visited client to the least unused vehicle of a type, if that pays; in a later pass it is tried only where the client or that
/// vehicle was touched since the client's last turn.
fn try_leaving(
    search: &mut Search<'_>,
    kit: &mut [Box<dyn Operator + Send>],
    memory: &mut Memory,
    each: bool,
    client: u32,
    vehicle_type: u32,
    reads: &mut Steps<Reads>,
) -> Result<(), NoMemory>
    requires client { client < place_count search.old.problem }
    requires vehicle_type { vehicle_type < length search.old.problem.types }
    requires kinds { map kind_of kit.old ≡ all_kinds }
    requires fits { All (λ b. fits b search.old.problem search.old.routes search.old.weights) kit.old }
    requires stage { IsStage search.old.problem search.old.weights (stage_of search.old memory.old (map tally_of kit.old)) }
    requires rests { RestsSince search.old.problem search.old.weights (slice_index memory.old.moments.clients client) (leaving_candidates client vehicle_type) (stage_of search.old memory.old (map tally_of kit.old)) }
    ensures tried { OnOk result (Tried search.old.problem search.old.weights all_kinds each (leaving_candidates client vehicle_type) (stage_of search.old memory.old (map tally_of kit.old)) (stage_of search.new memory.new (map tally_of kit.new))) }
    ensures moments { OnOk result (memory.new.moments ≡ memory.old.moments) }
    ensures fits { OnOk result (All (λ b. fits b search.new.problem search.new.routes search.new.weights) kit.new) }
    ensures kinds { map kind_of kit.new ≡ all_kinds }
    ensures stopped { OnErr result (Stopped search.old.problem search.old.weights (leaving_candidates client vehicle_type) search.old search.new) }
{
    if !each && memory.is_type_untouched(client, vehicle_type) {
        return Ok(());
    }
    try_each_empty(search, kit, memory, client, vehicle_type, reads)?;
    Ok(())
}

/// Puts in a client that isn't visited by the least unused vehicle of a type, if that pays; in a later pass it isn't tried with one that
/// is visited.
fn try_opening(
    search: &mut Search<'_>,
    kit: &mut [Box<dyn Operator + Send>],
    memory: &mut Memory,
    each: bool,
    client: u32,
    vehicle_type: u32,
    reads: &mut Steps<Reads>,
) -> Result<(), NoMemory>
    requires kinds { map kind_of kit.old ≡ all_kinds }
    requires fits { All (λ b. fits b search.old.problem search.old.routes search.old.weights) kit.old }
    requires stage { IsStage search.old.problem search.old.weights (stage_of search.old memory.old (map tally_of kit.old)) }
    ensures tried { OnOk result (Tried search.old.problem search.old.weights all_kinds each (empty_candidates client vehicle_type 13) (stage_of search.old memory.old (map tally_of kit.old)) (stage_of search.new memory.new (map tally_of kit.new))) }
    ensures moments { OnOk result (memory.new.moments ≡ memory.old.moments) }
    ensures fits { OnOk result (All (λ b. fits b search.new.problem search.new.routes search.new.weights) kit.new) }
    ensures kinds { map kind_of kit.new ≡ all_kinds }
    ensures stopped { OnErr result (Stopped search.old.problem search.old.weights (empty_candidates client vehicle_type 13) search.old search.new) }
{
    if !each && is_visited(search, client) {
        return Ok(());
    }
    try_empty(search, kit, memory, 13, client, vehicle_type, reads)?;
    Ok(())
}

/// Tries each kind for a client and a vehicle type.
pub(crate) fn try_type(
    search: &mut Search<'_>,
    kit: &mut [Box<dyn Operator + Send>],
    memory: &mut Memory,
    each: bool,
    client: u32,
    vehicle_type: u32,
    reads: &mut Steps<Reads>,
) -> Result<(), NoMemory>
    requires client { client < place_count search.old.problem }
    requires vehicle_type { vehicle_type < length search.old.problem.types }
    requires kinds { map kind_of kit.old ≡ all_kinds }
    requires fits { All (λ b. fits b search.old.problem search.old.routes search.old.weights) kit.old }
    requires stage { IsStage search.old.problem search.old.weights (stage_of search.old memory.old (map tally_of kit.old)) }
    requires rests { RestsSince search.old.problem search.old.weights (slice_index memory.old.moments.clients client) (leaving_candidates client vehicle_type) (stage_of search.old memory.old (map tally_of kit.old)) }
    ensures tried { OnOk result (Tried search.old.problem search.old.weights all_kinds each (unused_candidates client vehicle_type) (stage_of search.old memory.old (map tally_of kit.old)) (stage_of search.new memory.new (map tally_of kit.new))) }
    ensures moments { OnOk result (memory.new.moments ≡ memory.old.moments) }
    ensures fits { OnOk result (All (λ b. fits b search.new.problem search.new.routes search.new.weights) kit.new) }
    ensures kinds { map kind_of kit.new ≡ all_kinds }
    ensures stopped { OnErr result (Stopped search.old.problem search.old.weights (unused_candidates client vehicle_type) search.old search.new) }
{
    try_leaving(search, kit, memory, each, client, vehicle_type, reads)?;
    try_opening(search, kit, memory, each, client, vehicle_type, reads)?;
    Ok(())
}
