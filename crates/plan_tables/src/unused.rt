//! The least unused vehicle of each type.
ghost use Rattle.std.specs.Prelude.{◌≡◌, ◌<◌, ◌≤◌, IfOk, length, slice_set};
ghost use Rattle.problem_data.specs.Places.{vehicle_count};
ghost use Rattle.plan_tables.specs.Unused.{AreLeast, IsLeast};

use problem_data::{NoMemory, ProblemData};
use std::alloc::Global;

/// The least vehicle of a type that has no visit.
fn least_unused(given: &ProblemData, sizes: &[u32], vehicle_type: u32) -> Option<u32>
    requires { length sizes.now ≡ vehicle_count given.now }
    ensures { IsLeast given.now sizes.now vehicle_type result }
{
    given.vehicles();
    for (vehicle, size) in sizes.iter().enumerate() {
        if *size == 0 && given.type_of(vehicle as u32) == vehicle_type {
            return Some(vehicle as u32);
        }
    }
    None
}

/// Tells the least unused vehicle of each type.
fn fill_unused(given: &ProblemData, sizes: &[u32], unused: &mut [Option<u32>])
    requires sizes { length sizes.now ≡ vehicle_count given.now }
    requires types { length unused.old ≡ length given.now.types }
    ensures { AreLeast given.now sizes.now unused.new }
{
    given.validity();
    for vehicle_type in 0..unused.len() {
        unused[vehicle_type] = least_unused(given, sizes, vehicle_type as u32);
    }
}

/// The least unused vehicle of each type.
pub(crate) fn unused_of(
    alloc: Global,
    given: &ProblemData,
    sizes: &[u32],
) -> Result<Vec<Option<u32>>, NoMemory>
    requires { length sizes.now ≡ vehicle_count given.now }
    ensures { IfOk result (λ unused. AreLeast given.now sizes.now unused.items) }
{
    let types = given.problem().types.items().len();
    let mut unused: Vec<Option<u32>> = vec![in alloc; None; types]?;
    fill_unused(given, sizes, unused.as_mut_slice());
    Ok(unused)
}

/// Tells anew the least unused vehicle of a vehicle's type, where the vehicle, which had so many visits before, became used or unused.
pub(crate) fn follow_use(
    given: &ProblemData,
    sizes: &[u32],
    unused: &mut [Option<u32>],
    vehicle: u32,
    before: u32,
)
    requires sizes { length sizes.now ≡ vehicle_count given.now }
    requires vehicle { vehicle < vehicle_count given.now }
    requires least { AreLeast given.now (slice_set sizes.now vehicle before) unused.old }
    ensures { AreLeast given.now sizes.now unused.new }
{
    let is_used = sizes[vehicle as usize] > 0;
    if is_used != (before > 0) {
        let vehicle_type = given.type_of(vehicle);
        unused[vehicle_type as usize] = least_unused(given, sizes, vehicle_type);
    }
}
