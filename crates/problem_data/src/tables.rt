//! Tables that are made once beside a problem.
ghost use Rattle.std.specs.Prelude.{◌≡◌, ◌+◌, ◌++◌, ◌<◌, ◌≤◌, ℕ, length, flat_map, replicate, map, OnOk, IfOk, slice_range, if◌then◌else◌, nat_lt};
ghost use Rattle.std.specs.List.{enumerate_from, range_with_len};
ghost use Rattle.problem_data.specs.declared.problem.VehicleType.{VehicleType};

use crate::memory::NoMemory;
use crate::problem::VehicleType;
use crate::visit::Visit;
use std::alloc::Global;

/// Appends a number, that many times.
fn append_repeated(table: &mut Vec<u32>, number: u32, count: u32) -> Result<(), NoMemory>
    ensures { OnOk result (table.new.items ≡ table.old.items ++ replicate count number) }
{
    for _ in 0..count {
        table.push(number)?;
    }
    Ok(())
}

/// The number of each vehicle's type, type by type.
pub(crate) fn types_table(alloc: Global, types: &[VehicleType]) -> Result<Vec<u32>, NoMemory>
    requires { length types.now ≤ 64 }
    ensures { IfOk result (λ table. table.items ≡ flat_map (λ (e : ℕ × VehicleType). replicate e.1.count e.0) (enumerate_from 0 types.now)) }
{
    let mut table = Vec::new(alloc);
    for (number, vehicle_type) in types.iter().enumerate() {
        append_repeated(&mut table, number as u32, vehicle_type.count)?;
    }
    Ok(table)
}

/// The visit of a place: a reload at a depot, which is a place below `depots`, or a client's.
fn visit_at(depots: u32, place: u32) -> Visit
    ensures { result ≡ (if nat_lt place depots then Visit.Reload place else Visit.Client place) }
{
    if place < depots {
        Visit::Reload(place)
    } else {
        Visit::Client(place)
    }
}

/// The visit of each place, depots first.
pub(crate) fn visits_table(alloc: Global, depots: u32, places: u32) -> Result<Vec<Visit>, NoMemory>
    ensures { IfOk result (λ table. table.items ≡ map (λ place. if nat_lt place depots then Visit.Reload place else Visit.Client place) (range_with_len 0 places)) }
{
    let mut table = Vec::new(alloc);
    for place in 0..places {
        let visit = visit_at(depots, place);
        table.push(visit)?;
    }
    Ok(table)
}

/// The visit at an index, as a list of its own.
pub(crate) fn visit_alone(visits: &[Visit], at: usize) -> &[Visit]
    requires { at < length visits.now }
    ensures { result.now ≡ slice_range visits.now at (at + 1) }
{
    &visits[at..at + 1]
}
