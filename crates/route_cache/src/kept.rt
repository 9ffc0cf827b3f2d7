//! What a route keeps beside its list.
ghost use Rattle.std.specs.Prelude.{◌+◌, ◌*◌, IfOk, length};
ghost use Rattle.problem_data.specs.Reads.{RoseAtMost};
ghost use Rattle.problem_data.specs.Valid.{IsValid, IsValidType};
ghost use Rattle.routing_model.specs.Listed.{IsListed};
ghost use Rattle.route_cache.specs.inside.Kept.{IsKept};

use crate::backward::passed_backward;
use crate::forward::passed_forward;
use crate::mark::Mark;
use crate::piece_table::PieceTable;
use problem_data::{NoMemory, ProblemData, Reads, Steps, VehicleType, Visit};
use smallvec::SmallVec;
use std::alloc::Global;
use trips::{Trip, WholeRoute, trips_of};

/// What a route keeps beside its list.
#[derive(Drop)]
pub struct Kept {
    /// A mark for each position.
    pub marks: Vec<Mark>,
    /// The duration of the leg to each position; 0 for the start.
    pub durations: Vec<u32>,
    /// The start with the first i visits, for each i.
    pub before: PieceTable,
    /// The last k visits with the end, for each k.
    pub after: PieceTable,
    /// The runs of clients between reloads.
    pub trips: SmallVec<Trip, 4>,
    /// The whole list.
    pub whole: WholeRoute,
}

/// All that is kept beside a list. With n visits at most 2 · n + 1 legs are read, each once.
pub(crate) fn kept_of(
    alloc: Global,
    given: &ProblemData,
    vehicle_type: &VehicleType,
    visits: &[Visit],
    reads: &mut Steps<Reads>,
) -> Result<Kept, NoMemory>
    requires valid { IsValid given.now }
    requires vehicle_type { IsValidType given.now vehicle_type.now }
    requires listed { IsListed given.now visits.now }
    ensures kept { IfOk result (λ r. IsKept given.now vehicle_type.now visits.now r) }
    ensures reads { RoseAtMost (2 * length visits.now + 1) reads.old reads.new }
{
    let mut forward = passed_forward(alloc, given, vehicle_type, visits, reads)?;
    let whole = forward.finish(given, vehicle_type, visits, reads)?;
    let backward = passed_backward(
        alloc,
        given,
        vehicle_type,
        visits,
        forward.marks.as_slice(),
        forward.durations.as_slice(),
    )?;
    let trips = trips_of(alloc, visits)?;
    Ok(Kept {
        marks: forward.marks,
        durations: forward.durations,
        before: forward.table,
        after: backward.table,
        trips,
        whole,
    })
}
