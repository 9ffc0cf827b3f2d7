//! Turns of clients.
ghost use Rattle.std.specs.Prelude.{◌≡◌, ◌<◌, [], ◌∷◌, length, map, All, true, slice_index, OnOk, OnErr};
ghost use Rattle.problem_data.specs.Places.{place_count};
ghost use Rattle.search_model.specs.declared.candidate.Candidate.TheVariants.{Solo};
ghost use Rattle.search_model.specs.Candidates.{client_candidates, neighbour_candidates};
ghost use Rattle.search_model.specs.Kinds.{all_kinds};
ghost use Rattle.search_model.specs.Neighbours.{near_list};
ghost use Rattle.local_search.specs.Descents.{NamesPlaces};
ghost use Rattle.local_search.specs.inside.Stages.{IsStage, Keeps, RestsSince, Stopped, Tried, stage_of};
ghost use Rattle.local_search.specs.inside.Turns.{alone_candidates, kind_at, near_candidates, type_candidates};

use crate::each_kind::try_neighbour;
use crate::each_type::try_type;
use crate::kinds::kind_at;
use crate::moves::try_candidate;
use descent_memory::Memory;
use granular::Neighbours;
use move_core::{Candidate, Operator, Search};
use problem_data::{NoMemory, Reads, Steps};

/// Tries a client and its neighbour at a place of its list.
fn neighbour_step(
    search: &mut Search<'_>,
    kit: &mut [Box<dyn Operator + Send>],
    memory: &mut Memory,
    neighbours: &Neighbours,
    each: bool,
    client: u32,
    at: usize,
    reads: &mut Steps<Reads>,
) -> Result<(), NoMemory>
    requires at { at < length (near_list neighbours.now client) }
    requires client { client < place_count search.old.problem }
    requires neighbours { NamesPlaces search.old.problem neighbours.now }
    requires kinds { map kind_of kit.old ≡ all_kinds }
    requires fits { All (λ b. fits b search.old.problem search.old.routes search.old.weights) kit.old }
    requires stage { IsStage search.old.problem search.old.weights (stage_of search.old memory.old (map tally_of kit.old)) }
    requires rests { RestsSince search.old.problem search.old.weights (slice_index memory.old.moments.clients client) (neighbour_candidates client (slice_index (near_list neighbours.now client) at)) (stage_of search.old memory.old (map tally_of kit.old)) }
    ensures tried { OnOk result (Tried search.old.problem search.old.weights all_kinds each (neighbour_candidates client (slice_index (near_list neighbours.now client) at)) (stage_of search.old memory.old (map tally_of kit.old)) (stage_of search.new memory.new (map tally_of kit.new))) }
    ensures moments { OnOk result (memory.new.moments ≡ memory.old.moments) }
    ensures fits { OnOk result (All (λ b. fits b search.new.problem search.new.routes search.new.weights) kit.new) }
    ensures kinds { map kind_of kit.new ≡ all_kinds }
    ensures stopped { OnErr result (Stopped search.old.problem search.old.weights (neighbour_candidates client (slice_index (near_list neighbours.now client) at)) search.old search.new) }
{
    let neighbour = neighbours.of(client)[at];
    try_neighbour(search, kit, memory, each, client, neighbour, reads)?;
    Ok(())
}

/// Tries a client with each of its neighbours.
fn neighbour_turn(
    search: &mut Search<'_>,
    kit: &mut [Box<dyn Operator + Send>],
    memory: &mut Memory,
    neighbours: &Neighbours,
    each: bool,
    client: u32,
    reads: &mut Steps<Reads>,
) -> Result<(), NoMemory>
    requires client { client < place_count search.old.problem }
    requires neighbours { NamesPlaces search.old.problem neighbours.now }
    requires kinds { map kind_of kit.old ≡ all_kinds }
    requires fits { All (λ b. fits b search.old.problem search.old.routes search.old.weights) kit.old }
    requires stage { IsStage search.old.problem search.old.weights (stage_of search.old memory.old (map tally_of kit.old)) }
    requires rests { RestsSince search.old.problem search.old.weights (slice_index memory.old.moments.clients client) (near_candidates neighbours.now client) (stage_of search.old memory.old (map tally_of kit.old)) }
    ensures tried { OnOk result (Tried search.old.problem search.old.weights all_kinds each (near_candidates neighbours.now client) (stage_of search.old memory.old (map tally_of kit.old)) (stage_of search.new memory.new (map tally_of kit.new))) }
    ensures moments { OnOk result (memory.new.moments ≡ memory.old.moments) }
    ensures fits { OnOk result (All (λ b. fits b search.new.problem search.new.routes search.new.weights) kit.new) }
    ensures kinds { map kind_of kit.new ≡ all_kinds }
    ensures stopped { OnErr result (Stopped search.old.problem search.old.weights (near_candidates neighbours.now client) search.old search.new) }
{
    for at in 0..neighbours.of(client).len() {
        neighbour_step(search, kit, memory, neighbours, each, client, at, reads)?;
    }
    Ok(())
}

/// Tries a client with each vehicle type.
fn type_turn(
    search: &mut Search<'_>,
    kit: &mut [Box<dyn Operator + Send>],
    memory: &mut Memory,
    each: bool,
    client: u32,
    reads: &mut Steps<Reads>,
) -> Result<(), NoMemory>
    requires client { client < place_count search.old.problem }
    requires kinds { map kind_of kit.old ≡ all_kinds }
    requires fits { All (λ b. fits b search.old.problem search.old.routes search.old.weights) kit.old }
    requires stage { IsStage search.old.problem search.old.weights (stage_of search.old memory.old (map tally_of kit.old)) }
    requires rests { RestsSince search.old.problem search.old.weights (slice_index memory.old.moments.clients client) (type_candidates search.old.problem client) (stage_of search.old memory.old (map tally_of kit.old)) }
    ensures tried { OnOk result (Tried search.old.problem search.old.weights all_kinds each (type_candidates search.old.problem client) (stage_of search.old memory.old (map tally_of kit.old)) (stage_of search.new memory.new (map tally_of kit.new))) }
    ensures moments { OnOk result (memory.new.moments ≡ memory.old.moments) }
    ensures fits { OnOk result (All (λ b. fits b search.new.problem search.new.routes search.new.weights) kit.new) }
    ensures kinds { map kind_of kit.new ≡ all_kinds }
    ensures stopped { OnErr result (Stopped search.old.problem search.old.weights (type_candidates search.old.problem client) search.old search.new) }
{
    search.soundness();
    for vehicle_type in 0..memory.types() as u32 {
        try_type(search, kit, memory, each, client, vehicle_type, reads)?;
    }
    Ok(())
}

/// Tries the kind at a place of the kit for a client alone.
fn try_alone(
    search: &mut Search<'_>,
    kit: &mut [Box<dyn Operator + Send>],
    memory: &mut Memory,
    at: usize,
    client: u32,
    reads: &mut Steps<Reads>,
) -> Result<(), NoMemory>
    requires at { at < 18 }
    requires kinds { map kind_of kit.old ≡ all_kinds }
    requires fits { All (λ b. fits b search.old.problem search.old.routes search.old.weights) kit.old }
    requires stage { IsStage search.old.problem search.old.weights (stage_of search.old memory.old (map tally_of kit.old)) }
    ensures tried { OnOk result (Tried search.old.problem search.old.weights all_kinds true (Solo (kind_at at) client ∷ []) (stage_of search.old memory.old (map tally_of kit.old)) (stage_of search.new memory.new (map tally_of kit.new))) }
    ensures moments { OnOk result (memory.new.moments ≡ memory.old.moments) }
    ensures fits { OnOk result (All (λ b. fits b search.new.problem search.new.routes search.new.weights) kit.new) }
    ensures kinds { map kind_of kit.new ≡ all_kinds }
    ensures stopped { OnErr result (Stopped search.old.problem search.old.weights (Solo (kind_at at) client ∷ []) search.old search.new) }
{
    let candidate = Candidate::Solo {
        kind: kind_at(at),
        client,
    };
    try_candidate(search, kit, memory, at, candidate, reads)?;
    Ok(())
}

/// Tries a client alone: without the reload behind it, and taken out; in a later pass only where it was touched since its last turn.
fn alone_turn(
    search: &mut Search<'_>,
    kit: &mut [Box<dyn Operator + Send>],
    memory: &mut Memory,
    each: bool,
    client: u32,
    reads: &mut Steps<Reads>,
) -> Result<(), NoMemory>
    requires client { client < place_count search.old.problem }
    requires kinds { map kind_of kit.old ≡ all_kinds }
    requires fits { All (λ b. fits b search.old.problem search.old.routes search.old.weights) kit.old }
    requires stage { IsStage search.old.problem search.old.weights (stage_of search.old memory.old (map tally_of kit.old)) }
    requires rests { RestsSince search.old.problem search.old.weights (slice_index memory.old.moments.clients client) (alone_candidates client) (stage_of search.old memory.old (map tally_of kit.old)) }
    ensures tried { OnOk result (Tried search.old.problem search.old.weights all_kinds each (alone_candidates client) (stage_of search.old memory.old (map tally_of kit.old)) (stage_of search.new memory.new (map tally_of kit.new))) }
    ensures moments { OnOk result (memory.new.moments ≡ memory.old.moments) }
    ensures fits { OnOk result (All (λ b. fits b search.new.problem search.new.routes search.new.weights) kit.new) }
    ensures kinds { map kind_of kit.new ≡ all_kinds }
    ensures stopped { OnErr result (Stopped search.old.problem search.old.weights (alone_candidates client) search.old search.new) }
{
    if !each && memory.is_client_untouched(client) {
        return Ok(());
    }
    try_alone(search, kit, memory, 12, client, reads)?;
    try_alone(search, kit, memory, 14, client, reads)?;
    Ok(())
}

/// The turn of a client: with its neighbours, with the vehicle types, and alone.
pub(crate) fn turn(
    search: &mut Search<'_>,
    kit: &mut [Box<dyn Operator + Send>],
    memory: &mut Memory,
    neighbours: &Neighbours,
    each: bool,
    client: u32,
    reads: &mut Steps<Reads>,
) -> Result<(), NoMemory>
    requires client { client < place_count search.old.problem }
    requires neighbours { NamesPlaces search.old.problem neighbours.now }
    requires kinds { map kind_of kit.old ≡ all_kinds }
    requires fits { All (λ b. fits b search.old.problem search.old.routes search.old.weights) kit.old }
    requires stage { IsStage search.old.problem search.old.weights (stage_of search.old memory.old (map tally_of kit.old)) }
    requires keeps { Keeps search.old.problem search.old.weights (client_candidates search.old.problem neighbours.now) (stage_of search.old memory.old (map tally_of kit.old)) }
    ensures tried { OnOk result (Tried search.old.problem search.old.weights all_kinds each (client_candidates search.old.problem neighbours.now client) (stage_of search.old memory.old (map tally_of kit.old)) (stage_of search.new memory.new (map tally_of kit.new))) }
    ensures keeps { OnOk result (Keeps search.old.problem search.old.weights (client_candidates search.old.problem neighbours.now) (stage_of search.new memory.new (map tally_of kit.new))) }
    ensures moments { OnOk result (memory.new.moments.pairs ≡ memory.old.moments.pairs) }
    ensures fits { OnOk result (All (λ b. fits b search.new.problem search.new.routes search.new.weights) kit.new) }
    ensures kinds { map kind_of kit.new ≡ all_kinds }
    ensures stopped { OnErr result (Stopped search.old.problem search.old.weights (client_candidates search.old.problem neighbours.now client) search.old search.new) }
{
    let moment = memory.moment();
    neighbour_turn(search, kit, memory, neighbours, each, client, reads)?;
    type_turn(search, kit, memory, each, client, reads)?;
    alone_turn(search, kit, memory, each, client, reads)?;
    memory.finish(client, moment);
    Ok(())
}
