//! What plans exceed.
ghost use Rattle.std.specs.Prelude.{◌≡◌, ℕ, ◌+◌, ◌*◌, ◌^◌, ◌<◌, ◌≤◌, List, length, sum_by};
ghost use Rattle.problem_data.specs.declared.visit.Visit.{Visit};
ghost use Rattle.problem_data.specs.Places.{vehicle_count};
ghost use Rattle.problem_data.specs.Reads.{RoseAtMost};
ghost use Rattle.routing_model.specs.Feasible.{assessment, total_excess_distance, total_excess_load, total_excess_time};
ghost use Rattle.penalty_cost.specs.inside.Excess.{IsExcessOf, IsExcessWithin, most_stops, stops_within};
ghost use Rattle.routing_model.specs.Listed.{IsListed, type_of_vehicle};
ghost use Rattle.penalty_cost.specs.Plans.{IsDrivablePlan};

use crate::totals::totals_of;
use crate::vehicle_cost::{excess_distance, excess_time};
use problem_data::{ProblemData, Reads, Solution, Steps, Visit, VisitList};
use routing_model::Assessment;

/// What vehicles exceed.
#[derive(Clone, Copy)]
struct Excess {
    /// Their loads above the capacity.
    load: u64,
    /// Their time warp, and their net duration above the maximum.
    time: u64,
    /// Their distance above the maximum.
    distance: u64,
}

/// No excess.
fn no_excess() -> Excess
    ensures { (result.load ≡ 0) × (result.time ≡ 0) × (result.distance ≡ 0) }
{
    Excess {
        load: 0,
        time: 0,
        distance: 0,
    }
}

/// What a vehicle exceeds with this list; nothing where it is unused.
fn vehicle_excess(
    given: &ProblemData,
    vehicle: u32,
    visits: &[Visit],
    reads: &mut Steps<Reads>,
) -> Excess
    requires vehicle { vehicle < vehicle_count given.now }
    requires listed { IsListed given.now visits.now }
    ensures excess { IsExcessOf given.now (type_of_vehicle given.now vehicle) visits.now result }
    ensures short { IsExcessWithin (stops_within visits.now) result }
    ensures reads { RoseAtMost (length visits.now + 1) reads.old reads.new }
{
    if visits.is_empty() {
        return no_excess();
    }
    let vehicle_type = given.vehicle_type(vehicle);
    let totals = totals_of(given, vehicle_type, visits, reads);
    Excess {
        load: totals.excess_load,
        time: excess_time(vehicle_type, totals),
        distance: excess_distance(vehicle_type, totals),
    }
}

/// Both together.
fn added(first: Excess, second: Excess) -> Excess
    requires first { (stops : ℕ) × (stops ≤ most_stops) × IsExcessWithin stops first }
    requires second { (stops : ℕ) × (stops ≤ most_stops) × IsExcessWithin stops second }
    ensures load { result.load ≡ first.load + second.load }
    ensures time { result.time ≡ first.time + second.time }
    ensures distance { result.distance ≡ first.distance + second.distance }
{
    Excess {
        load: first.load + second.load,
        time: first.time + second.time,
        distance: first.distance + second.distance,
    }
}

/// What the vehicles of a plan exceed together.
fn plan_excess(given: &ProblemData, routes: &[VisitList], reads: &mut Steps<Reads>) -> Excess
    requires { IsDrivablePlan given.now routes.now }
    ensures load { result.load ≡ total_excess_load given.now routes.now }
    ensures time { result.time ≡ total_excess_time given.now routes.now }
    ensures distance { result.distance ≡ total_excess_distance given.now routes.now }
    ensures short { IsExcessWithin most_stops result }
    ensures reads { RoseAtMost (sum_by (λ (visits : List Visit). length visits + 1) routes.now) reads.old reads.new }
{
    given.vehicles();
    given.validity();
    let mut excess = no_excess();
    for (vehicle, visits) in routes.iter().enumerate() {
        excess = added(
            excess,
            vehicle_excess(given, vehicle as u32, visits.items(), reads),
        );
    }
    excess
}

/// What a plan exceeds: the sums over its used vehicles of their excess loads, of their time warp with excess duration, and of
/// their excess distances. The plan is feasible exactly where all are 0 and it is lawful.
///
/// Conditions: there is one list for each vehicle, each names existing places, is tidy and has no more visits than a vehicle can
/// have, and no client stands twice. For each vehicle it reads at most one leg more than there are visits.
pub fn assess(given: &ProblemData, solution: &Solution, reads: &mut Steps<Reads>) -> Assessment
    requires { IsDrivablePlan given.now solution.now.routes }
    ensures assessment { result ≡ assessment given.now solution.now.routes }
    ensures reads { RoseAtMost (sum_by (λ (visits : List Visit). length visits + 1) solution.now.routes) reads.old reads.new }
{
    let excess = plan_excess(given, solution.routes.items(), reads);
    Assessment {
        load: excess.load as i64,
        warp: excess.time as i64,
        distance: excess.distance as i64,
    }
}
