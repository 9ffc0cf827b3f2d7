//! The new routes of a gain.
ghost use Rattle.std.specs.Prelude.{◌≡◌, ◌<◌, All, IfOk, IfSome, flat_map, length, option_map};
ghost use Rattle.problem_data.specs.Places.{vehicle_count};
ghost use Rattle.problem_data.specs.Reads.{RoseAtMost};
ghost use Rattle.routing_model.specs.Listed.{IsListed};
ghost use Rattle.gain_model.specs.Gains.{IsPartWithin, IsWithin, made, part_visits};
ghost use Rattle.gain_model.specs.RouteReads.{apply_reads, set_reads};
ghost use Rattle.move_core.specs.inside.Applying.{AreMadeRoutes, second_reads};
ghost use Rattle.plan_tables.specs.Routes.{lists_of, vehicle_route};

use penalty_cost::{Gain, Part, Side};
use plan_tables::joined;
use problem_data::{NoMemory, ProblemData, Reads, Steps};
use route_cache::Route;
use std::alloc::Global;

/// A vehicle's route with the list that parts name.
fn made_route<'d>(
    alloc: Global,
    given: &'d ProblemData,
    routes: &[Route<'d>],
    vehicle: u32,
    parts: &[Part],
    reads: &mut Steps<Reads>,
) -> Result<Route<'d>, NoMemory>
    requires vehicle { vehicle < vehicle_count given.now }
    requires within { All (IsPartWithin (lists_of routes.now)) parts.now }
    requires listed { IsListed given.now (flat_map (part_visits (lists_of routes.now)) parts.now) }
    ensures route { IfOk result (λ r. r ≡ record { problem = given.now; vehicle = vehicle; visits = flat_map (part_visits (lists_of routes.now)) parts.now }) }
    ensures reads { RoseAtMost (set_reads (length (flat_map (part_visits (lists_of routes.now)) parts.now))) reads.old reads.new }
{
    let list = joined(alloc, routes, parts)?;
    Route::with_visits(alloc, given, vehicle, list.as_slice(), reads)
}

/// The same of a second vehicle, if there is one.
fn second_route<'d>(
    alloc: Global,
    given: &'d ProblemData,
    routes: &[Route<'d>],
    vehicle: Option<u32>,
    parts: &[Part],
    reads: &mut Steps<Reads>,
) -> Result<Option<Route<'d>>, NoMemory>
    requires vehicle { IfSome vehicle (λ v. v < vehicle_count given.now) }
    requires within { All (IsPartWithin (lists_of routes.now)) parts.now }
    requires listed { IfSome vehicle (λ _. IsListed given.now (flat_map (part_visits (lists_of routes.now)) parts.now)) }
    ensures route { IfOk result (λ r. r ≡ option_map (vehicle_route given.now (flat_map (part_visits (lists_of routes.now)) parts.now)) vehicle) }
    ensures reads { RoseAtMost (second_reads vehicle (flat_map (part_visits (lists_of routes.now)) parts.now)) reads.old reads.new }
{
    match vehicle {
        Some(vehicle) => {
            let route = made_route(alloc, given, routes, vehicle, parts, reads)?;
            Ok(Some(route))
        }
        None => Ok(None),
    }
}

/// The new routes of a gain. All memory is taken here.
pub(crate) fn made_routes<'d>(
    alloc: Global,
    given: &'d ProblemData,
    routes: &[Route<'d>],
    gain: &Gain,
    reads: &mut Steps<Reads>,
) -> Result<(Route<'d>, Option<Route<'d>>), NoMemory>
    requires count { length routes.now ≡ vehicle_count given.now }
    requires within { IsWithin gain.now (lists_of routes.now) }
    requires listed { All (IsListed given.now) (made gain.now (lists_of routes.now)) }
    ensures routes { IfOk result (λ r. AreMadeRoutes given.now (lists_of routes.now) gain.now r.0 r.1) }
    ensures reads { RoseAtMost (apply_reads (lists_of routes.now) gain.now) reads.old reads.new }
{
    let (first, second) = gain.vehicles();
    let route = made_route(alloc, given, routes, first, gain.parts(Side::First), reads)?;
    let other = second_route(
        alloc,
        given,
        routes,
        second,
        gain.parts(Side::Second),
        reads,
    )?;
    Ok((route, other))
}
