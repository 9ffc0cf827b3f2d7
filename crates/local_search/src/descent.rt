//! The descent of a search by the operators of a kit.
ghost use Rattle.std.specs.Prelude.{◌≡◌, List, length, map, IfOk, OnErr};
ghost use Rattle.std.specs.List.{range_with_len};
ghost use Rattle.search_model.specs.Candidates.{candidates};
ghost use Rattle.search_model.specs.Edits.{unused_vehicle};
ghost use Rattle.search_model.specs.Kinds.{all_kinds};
ghost use Rattle.descent_memory.specs.Memories.{IsFresh};
ghost use Rattle.local_search.specs.Descents.{Descends, NamesClients, NamesPlaces, StopsAfter};

use crate::kit::prepare_all;
use crate::passes::all_passes;
use descent_memory::Memory;
use granular::Neighbours;
use move_core::{Kit, Operator, Search, Tally};
use problem_data::{NoMemory, Reads, Steps};
use std::alloc::Global;

/// The least unused vehicle of each type.
fn unused_vehicles(alloc: Global, search: &Search<'_>) -> Result<Vec<Option<u32>>, NoMemory>
    ensures { IfOk result (λ unused. unused.items ≡ map (unused_vehicle search.now.problem search.now.routes) (range_with_len 0 (length search.now.problem.types))) }
{
    let types = search.data().problem().types.items().len();
    let mut unused = Vec::new(alloc);
    for vehicle_type in 0..types {
        unused.push(search.unused(vehicle_type as u32))?;
    }
    Ok(unused)
}

/// A memory of nothing.
fn fresh_memory(alloc: Global, search: &Search<'_>) -> Result<Memory, NoMemory>
    ensures { IfOk result (λ memory. IsFresh search.now.problem search.now.routes memory) }
{
    let given = search.data();
    let places = given.client_places().end;
    let unused = unused_vehicles(alloc, search)?;
    Memory::new(alloc, places, given.vehicles(), unused)
}

/// Descends, with the operators as a slice.
fn descend_with(
    alloc: Global,
    search: &mut Search<'_>,
    kit: &mut [Box<dyn Operator + Send>],
    neighbours: &Neighbours,
    order: &[u32],
    reads: &mut Steps<Reads>,
) -> Result<Tally, NoMemory>
    requires kinds { map kind_of kit.old ≡ all_kinds }
    requires order { NamesClients search.old.problem order.now }
    requires neighbours { NamesPlaces search.old.problem neighbours.now }
    ensures kinds { map kind_of kit.new ≡ all_kinds }
    ensures problem { search.new.problem ≡ search.old.problem }
    ensures weights { search.new.weights ≡ search.old.weights }
    ensures descends { IfOk result (λ tally. Descends search.old.problem search.old.weights all_kinds (candidates search.old.problem neighbours.now order.now) search.old.routes search.new.routes (map tally_of kit.old) (map tally_of kit.new) tally) }
    ensures stops { OnErr result (StopsAfter search.old.problem search.old.weights (candidates search.old.problem neighbours.now order.now) search.old.routes search.new.routes) }
{
    search.soundness();
    let mut memory = fresh_memory(alloc, search)?;
    prepare_all(kit, search, reads)?;
    all_passes(search, kit, &mut memory, neighbours, order, reads)?;
    Ok(Tally {
        tried: memory.tried(),
        applied: memory.clock(),
    })
}

/// Descends: goes through the candidates of all kinds pass after pass, takes each move by which the cost falls, and stops after a pass
/// that takes none. A later pass leaves out candidates of which nothing was touched since the last turn of their client, or of their
/// pair of vehicles.
///
/// The tally tells how many moves were taken, and how many times operators were asked. Where memory runs out, the lists are those
/// after some of the descent's moves. Conditions: the kit has an operator of each kind, in order, and the order and the neighbour lists
/// name places that are there.
pub fn descend(
    search: &mut Search<'_>,
    kit: &mut Kit,
    neighbours: &Neighbours,
    order: &[u32],
    reads: &mut Steps<Reads>,
) -> Result<Tally, NoMemory>
    requires kinds { map kind_of kit.old.items ≡ all_kinds }
    requires order { NamesClients search.old.problem order.now }
    requires neighbours { NamesPlaces search.old.problem neighbours.now }
    ensures kinds { map kind_of kit.new.items ≡ all_kinds }
    ensures problem { search.new.problem ≡ search.old.problem }
    ensures weights { search.new.weights ≡ search.old.weights }
    ensures descends { IfOk result (λ tally. Descends search.old.problem search.old.weights all_kinds (candidates search.old.problem neighbours.now order.now) search.old.routes search.new.routes (map tally_of kit.old.items) (map tally_of kit.new.items) tally) }
    ensures stops { OnErr result (StopsAfter search.old.problem search.old.weights (candidates search.old.problem neighbours.now order.now) search.old.routes search.new.routes) }
{
    let alloc = *kit.allocator();
    descend_with(alloc, search, kit.as_mut_slice(), neighbours, order, reads)
}
