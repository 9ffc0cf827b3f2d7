//! Vehicles to which a client may go.
ghost use Rattle.std.specs.Prelude.{◌≡◌, ◌+◌, ◌<◌, IfOk, filter, length};
ghost use Rattle.list_words.specs.Lists.{places_of};
ghost use Rattle.problem_data.specs.Places.{vehicle_count};
ghost use Rattle.search_model.specs.RouteMoves.{is_used_or_least};
ghost use Rattle.least_insertions.specs.inside.Types.{AreMet};

use problem_data::{NoMemory, ProblemData, VisitList, is_used};
use std::alloc::Global;

/// Whether a vehicle is used, or else is the first unused one of its type that is met. Its type is then marked.
fn is_used_or_first(
    given: &ProblemData,
    vehicle: u32,
    routes: &[VisitList],
    met: &mut [bool],
) -> bool
    requires one_list_each { length routes.now ≡ vehicle_count given.now }
    requires vehicle { vehicle < vehicle_count given.now }
    requires marks { length met.old ≡ length given.now.types }
    requires met { AreMet given.now routes.now vehicle met.old }
    ensures marks { length met.new ≡ length met.old }
    ensures met { AreMet given.now routes.now (vehicle + 1) met.new }
    ensures fits { result ≡ is_used_or_least given.now routes.now vehicle }
{
    let number = given.type_of(vehicle) as usize;
    if is_used(routes[vehicle as usize].items()) {
        return true;
    }
    let first = !met[number];
    met[number] = true;
    first
}

/// The used vehicles and the least unused one of each type, by number.
pub(crate) fn used_and_least(
    alloc: Global,
    given: &ProblemData,
    routes: &[VisitList],
) -> Result<Vec<u32>, NoMemory>
    requires one_list_each { length routes.now ≡ vehicle_count given.now }
    ensures { IfOk result (λ r. r.items ≡ filter (is_used_or_least given.now routes.now) (places_of routes.now)) }
{
    let mut marks = vec![in alloc; false; given.problem().types.items().len()]?;
    let met = marks.as_mut_slice();
    let mut vehicles = Vec::new(alloc);
    for vehicle in 0..given.vehicles() {
        if is_used_or_first(given, vehicle, routes, met) {
            vehicles.push(vehicle)?;
        }
    }
    Ok(vehicles)
}
