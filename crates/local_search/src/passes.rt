//! Passes over all clients, one after the other, and over all pairs of vehicles.
ghost use Rattle.std.specs.Prelude.{◌≡◌, length, map, All, IfOk, OnOk, OnErr};
ghost use Rattle.routing_model.specs.Cost.{solution_cost};
ghost use Rattle.search_model.specs.Candidates.{candidates, client_candidates};
ghost use Rattle.search_model.specs.Descent.{takes_some};
ghost use Rattle.search_model.specs.Kinds.{all_kinds};
ghost use Rattle.search_model.specs.Moves.{moved};
ghost use Rattle.search_model.specs.Search.{route_tries};
ghost use Rattle.local_search.specs.Descents.{NamesClients, NamesPlaces, StopsAfter};
ghost use Rattle.local_search.specs.inside.Stages.{IsStage, Keeps, KeepsPairs, Stopped, Tried, Went, stage_of};
ghost use Rattle.local_search.specs.inside.Turns.{all_client_candidates};

use crate::pair_turns::pair_turns;
use crate::turns::turn;
use descent_memory::Memory;
use granular::Neighbours;
use move_core::{Operator, Search};
use problem_data::{NoMemory, Reads, Steps};

/// The turns of all clients, in an order.
fn client_turns(
    search: &mut Search<'_>,
    kit: &mut [Box<dyn Operator + Send>],
    memory: &mut Memory,
    neighbours: &Neighbours,
    each: bool,
    order: &[u32],
    reads: &mut Steps<Reads>,
) -> Result<(), NoMemory>
    requires order { NamesClients search.old.problem order.now }
    requires neighbours { NamesPlaces search.old.problem neighbours.now }
    requires kinds { map kind_of kit.old ≡ all_kinds }
    requires fits { All (λ b. fits b search.old.problem search.old.routes search.old.weights) kit.old }
    requires stage { IsStage search.old.problem search.old.weights (stage_of search.old memory.old (map tally_of kit.old)) }
    requires keeps { Keeps search.old.problem search.old.weights (client_candidates search.old.problem neighbours.now) (stage_of search.old memory.old (map tally_of kit.old)) }
    ensures tried { OnOk result (Tried search.old.problem search.old.weights all_kinds each (all_client_candidates search.old.problem neighbours.now order.now) (stage_of search.old memory.old (map tally_of kit.old)) (stage_of search.new memory.new (map tally_of kit.new))) }
    ensures keeps { OnOk result (Keeps search.old.problem search.old.weights (client_candidates search.old.problem neighbours.now) (stage_of search.new memory.new (map tally_of kit.new))) }
    ensures moments { OnOk result (memory.new.moments.pairs ≡ memory.old.moments.pairs) }
    ensures fits { OnOk result (All (λ b. fits b search.new.problem search.new.routes search.new.weights) kit.new) }
    ensures kinds { map kind_of kit.new ≡ all_kinds }
    ensures stopped { OnErr result (Stopped search.old.problem search.old.weights (all_client_candidates search.old.problem neighbours.now order.now) search.old search.new) }
{
    for client in order {
        turn(search, kit, memory, neighbours, each, *client, reads)?;
    }
    Ok(())
}

/// A pass: the turn of each client, and then of each pair of vehicles.
fn pass(
    search: &mut Search<'_>,
    kit: &mut [Box<dyn Operator + Send>],
    memory: &mut Memory,
    neighbours: &Neighbours,
    each: bool,
    order: &[u32],
    reads: &mut Steps<Reads>,
) -> Result<(), NoMemory>
    requires order { NamesClients search.old.problem order.now }
    requires neighbours { NamesPlaces search.old.problem neighbours.now }
    requires kinds { map kind_of kit.old ≡ all_kinds }
    requires fits { All (λ b. fits b search.old.problem search.old.routes search.old.weights) kit.old }
    requires stage { IsStage search.old.problem search.old.weights (stage_of search.old memory.old (map tally_of kit.old)) }
    requires keeps { Keeps search.old.problem search.old.weights (client_candidates search.old.problem neighbours.now) (stage_of search.old memory.old (map tally_of kit.old)) }
    requires pairs { KeepsPairs search.old.problem search.old.weights (stage_of search.old memory.old (map tally_of kit.old)) }
    ensures tried { OnOk result (Tried search.old.problem search.old.weights all_kinds each (candidates search.old.problem neighbours.now order.now) (stage_of search.old memory.old (map tally_of kit.old)) (stage_of search.new memory.new (map tally_of kit.new))) }
    ensures keeps { OnOk result (Keeps search.old.problem search.old.weights (client_candidates search.old.problem neighbours.now) (stage_of search.new memory.new (map tally_of kit.new))) }
    ensures pairs { OnOk result (KeepsPairs search.old.problem search.old.weights (stage_of search.new memory.new (map tally_of kit.new))) }
    ensures fits { OnOk result (All (λ b. fits b search.new.problem search.new.routes search.new.weights) kit.new) }
    ensures kinds { map kind_of kit.new ≡ all_kinds }
    ensures stopped { OnErr result (Stopped search.old.problem search.old.weights (candidates search.old.problem neighbours.now order.now) search.old search.new) }
{
    client_turns(search, kit, memory, neighbours, each, order, reads)?;
    pair_turns(search, kit, memory, each, reads)?;
    Ok(())
}

/// A pass, and whether it takes a candidate: whether the cost falls.
fn takes_some(
    search: &mut Search<'_>,
    kit: &mut [Box<dyn Operator + Send>],
    memory: &mut Memory,
    neighbours: &Neighbours,
    each: bool,
    order: &[u32],
    reads: &mut Steps<Reads>,
) -> Result<bool, NoMemory>
    requires order { NamesClients search.old.problem order.now }
    requires neighbours { NamesPlaces search.old.problem neighbours.now }
    requires kinds { map kind_of kit.old ≡ all_kinds }
    requires fits { All (λ b. fits b search.old.problem search.old.routes search.old.weights) kit.old }
    requires stage { IsStage search.old.problem search.old.weights (stage_of search.old memory.old (map tally_of kit.old)) }
    requires keeps { Keeps search.old.problem search.old.weights (client_candidates search.old.problem neighbours.now) (stage_of search.old memory.old (map tally_of kit.old)) }
    requires pairs { KeepsPairs search.old.problem search.old.weights (stage_of search.old memory.old (map tally_of kit.old)) }
    ensures tried { OnOk result (Tried search.old.problem search.old.weights all_kinds each (candidates search.old.problem neighbours.now order.now) (stage_of search.old memory.old (map tally_of kit.old)) (stage_of search.new memory.new (map tally_of kit.new))) }
    ensures keeps { OnOk result (Keeps search.old.problem search.old.weights (client_candidates search.old.problem neighbours.now) (stage_of search.new memory.new (map tally_of kit.new))) }
    ensures pairs { OnOk result (KeepsPairs search.old.problem search.old.weights (stage_of search.new memory.new (map tally_of kit.new))) }
    ensures fits { OnOk result (All (λ b. fits b search.new.problem search.new.routes search.new.weights) kit.new) }
    ensures kinds { map kind_of kit.new ≡ all_kinds }
    ensures stopped { OnErr result (Stopped search.old.problem search.old.weights (candidates search.old.problem neighbours.now order.now) search.old search.new) }
    ensures takes { IfOk result (λ takes. takes ≡ takes_some (moved search.old.problem search.old.weights) (solution_cost search.old.problem search.old.weights) (candidates search.old.problem neighbours.now order.now) search.old.routes) }
{
    let before = search.cost();
    pass(search, kit, memory, neighbours, each, order, reads)?;
    Ok(search.cost() < before)
}

/// Later passes, until one takes nothing.
fn later_passes(
    search: &mut Search<'_>,
    kit: &mut [Box<dyn Operator + Send>],
    memory: &mut Memory,
    neighbours: &Neighbours,
    order: &[u32],
    reads: &mut Steps<Reads>,
) -> Result<(), NoMemory>
    requires order { NamesClients search.old.problem order.now }
    requires neighbours { NamesPlaces search.old.problem neighbours.now }
    requires kinds { map kind_of kit.old ≡ all_kinds }
    requires fits { All (λ b. fits b search.old.problem search.old.routes search.old.weights) kit.old }
    requires stage { IsStage search.old.problem search.old.weights (stage_of search.old memory.old (map tally_of kit.old)) }
    requires keeps { Keeps search.old.problem search.old.weights (client_candidates search.old.problem neighbours.now) (stage_of search.old memory.old (map tally_of kit.old)) }
    requires pairs { KeepsPairs search.old.problem search.old.weights (stage_of search.old memory.old (map tally_of kit.old)) }
    ensures went { OnOk result (Went search.old.problem search.old.weights all_kinds 0 (route_tries search.old.problem search.old.weights (candidates search.old.problem neighbours.now order.now) search.old.routes) (stage_of search.old memory.old (map tally_of kit.old)) (stage_of search.new memory.new (map tally_of kit.new))) }
    ensures kinds { map kind_of kit.new ≡ all_kinds }
    ensures problem { search.new.problem ≡ search.old.problem }
    ensures weights { search.new.weights ≡ search.old.weights }
    ensures stops { OnErr result (StopsAfter search.old.problem search.old.weights (candidates search.old.problem neighbours.now order.now) search.old.routes search.new.routes) }
{
    while takes_some(search, kit, memory, neighbours, false, order, reads)? {}
    Ok(())
}

/// Pass after pass, until one takes nothing. The first tries each candidate.
pub(crate) fn all_passes(
    search: &mut Search<'_>,
    kit: &mut [Box<dyn Operator + Send>],
    memory: &mut Memory,
    neighbours: &Neighbours,
    order: &[u32],
    reads: &mut Steps<Reads>,
) -> Result<(), NoMemory>
    requires order { NamesClients search.old.problem order.now }
    requires neighbours { NamesPlaces search.old.problem neighbours.now }
    requires kinds { map kind_of kit.old ≡ all_kinds }
    requires fits { All (λ b. fits b search.old.problem search.old.routes search.old.weights) kit.old }
    requires stage { IsStage search.old.problem search.old.weights (stage_of search.old memory.old (map tally_of kit.old)) }
    requires keeps { Keeps search.old.problem search.old.weights (client_candidates search.old.problem neighbours.now) (stage_of search.old memory.old (map tally_of kit.old)) }
    requires pairs { KeepsPairs search.old.problem search.old.weights (stage_of search.old memory.old (map tally_of kit.old)) }
    ensures went { OnOk result (Went search.old.problem search.old.weights all_kinds (length (candidates search.old.problem neighbours.now order.now)) (route_tries search.old.problem search.old.weights (candidates search.old.problem neighbours.now order.now) search.old.routes) (stage_of search.old memory.old (map tally_of kit.old)) (stage_of search.new memory.new (map tally_of kit.new))) }
    ensures kinds { map kind_of kit.new ≡ all_kinds }
    ensures problem { search.new.problem ≡ search.old.problem }
    ensures weights { search.new.weights ≡ search.old.weights }
    ensures stops { OnErr result (StopsAfter search.old.problem search.old.weights (candidates search.old.problem neighbours.now order.now) search.old.routes search.new.routes) }
{
    if !takes_some(search, kit, memory, neighbours, true, order, reads)? {
        return Ok(());
    }
    later_passes(search, kit, memory, neighbours, order, reads)?;
    Ok(())
}
