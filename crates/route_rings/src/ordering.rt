//! The order of a plan's routes by the directions in which their clients lie.
ghost use Rattle.std.specs.Prelude.{◌≡◌, ◌++◌, All, IfOk, OnOk, length, map};
ghost use Rattle.problem_data.specs.Places.{vehicle_count};
ghost use Rattle.routing_model.specs.Listed.{IsListed};
ghost use Rattle.genetic_model.specs.RouteOrder.{route_order};
ghost use Rattle.route_rings.specs.inside.Directions.{used_direction, used_directions};

use crate::direction::{Direction, compared, route_vector};
use genetic_model::directions_are_ordered;
use problem_data::{NoMemory, ProblemData, Visit, VisitList, is_used};
use std::alloc::Global;

/// Adds the direction of a vehicle, if it is used.
fn push_used(
    given: &ProblemData,
    vehicle: u32,
    visits: &[Visit],
    directions: &mut Vec<Direction>,
) -> Result<(), NoMemory>
    requires { IsListed given.now visits.now }
    ensures { OnOk result (directions.new.items ≡ directions.old.items ++ used_direction given.now vehicle visits.now) }
{
    if is_used(visits) {
        directions.push(Direction {
            vehicle,
            vector: route_vector(given, visits),
        })?;
    }
    Ok(())
}

/// The directions of the used vehicles, by number.
fn used_directions(
    alloc: Global,
    given: &ProblemData,
    routes: &[VisitList],
) -> Result<Vec<Direction>, NoMemory>
    requires one_list_each { length routes.now ≡ vehicle_count given.now }
    requires listed { All (IsListed given.now) routes.now }
    ensures { IfOk result (λ r. r.items ≡ used_directions given.now routes.now (length routes.now)) }
{
    given.vehicles();
    let mut directions = Vec::new(alloc);
    for (vehicle, visits) in routes.iter().enumerate() {
        push_used(given, vehicle as u32, visits.items(), &mut directions)?;
    }
    Ok(directions)
}

/// The vehicles of directions.
fn vehicles_of(alloc: Global, directions: &[Direction]) -> Result<Vec<u32>, NoMemory>
    ensures { IfOk result (λ r. r.items ≡ map (λ (d : Direction). d.vehicle) directions.now) }
{
    let mut vehicles = Vec::new(alloc);
    for direction in directions {
        vehicles.push(direction.vehicle)?;
    }
    Ok(vehicles)
}

/// The used vehicles of a plan by the direction in which their clients lie as seen from the first place, going round from the first axis,
/// ties by number (after Nagata and Kobayashi 2010). Condition: there are lists of vehicles, each one that a vehicle can have. Refused
/// only where memory runs out.
pub fn route_order(
    alloc: Global,
    given: &ProblemData,
    routes: &[VisitList],
) -> Result<Vec<u32>, NoMemory>
    requires one_list_each { length routes.now ≡ vehicle_count given.now }
    requires listed { All (IsListed given.now) routes.now }
    ensures { IfOk result (λ r. r.items ≡ route_order given.now routes.now) }
{
    directions_are_ordered();
    let mut directions = used_directions(alloc, given, routes)?;
    directions.sort_by(|u, v| compared(u, v))?;
    vehicles_of(alloc, directions.as_slice())
}
