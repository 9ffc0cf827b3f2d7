//! What a view adds up to, for a vehicle of some type.
ghost use Rattle.std.specs.Prelude.{◌≡◌, ◌<◌, ◌≤◌, length};
ghost use Rattle.problem_data.specs.Limits.{largest};
ghost use Rattle.problem_data.specs.Reads.{RoseAtMost};
ghost use Rattle.problem_data.specs.declared.problem.VehicleType.{VehicleType as TypeOf};
ghost use Rattle.problem_data.specs.Valid.{IsValidType};
ghost use Rattle.gain_model.specs.GainReads.{anew_reads};
ghost use Rattle.trips.specs.Laws.{IsInRange};
ghost use Rattle.trips.specs.RunSegments.{HoldsRun};
ghost use Rattle.route_cache.specs.Routes.{IsTypeFor, run_of};
ghost use Rattle.joined_views.specs.Views.{IsOwn, seen_view};
ghost use Rattle.joined_views.specs.inside.Recounts.{IsKeptRun, KeepsUnder, visits_alone};

use crate::later_trips::later_excess;
use crate::open_run::OpenRun;
use problem_data::{ProblemData, Reads, Steps, VehicleType, Visit};
use route_cache::View;
use segments::DistanceSegment;
use trips::{Middle, RunSegment, TripSegment};

/// What a view adds up to, for a vehicle of this type. It is looked up where the lender's profile is the type's; else each visit is
/// driven anew, at one leg for each.
pub(crate) fn lent_run(
    given: &ProblemData,
    vehicle_type: &VehicleType,
    view: &View<'_>,
    reads: &mut Steps<Reads>,
) -> RunSegment
    requires problem { view.now.problem ≡ given.now }
    requires vehicle_type { IsValidType given.now vehicle_type.now }
    requires own { IsOwn given.now vehicle_type.now view.now }
    requires in_range { IsInRange given.now vehicle_type.now (run_of view.now) }
    ensures holds { HoldsRun given.now vehicle_type.now result (run_of view.now) }
    ensures reads { RoseAtMost (anew_reads vehicle_type.now.profile (seen_view given.now view.now)) reads.old reads.new }
{
    view.validity();
    let kept = looked_up(view);
    let Some(lender) = view.vehicle() else {
        return kept;
    };
    let lending = given.vehicle_type(lender);
    if lending.profile != vehicle_type.profile {
        driven_anew(given, vehicle_type, view.visits(), reads)
    } else if lending.capacity != vehicle_type.capacity {
        recounted(given, kept, view.visits(), vehicle_type.capacity)
    } else {
        kept
    }
}

/// What a view adds up to by its lender's type.
fn looked_up(view: &View<'_>) -> RunSegment
    ensures { (t : TypeOf) → IsTypeFor view.now.problem view.now.vehicle t → HoldsRun view.now.problem t result (run_of view.now) }
{
    RunSegment {
        trips: view.segment(),
        distance: DistanceSegment {
            distance: view.distance(),
        },
        prizes: view.prizes(),
    }
}

/// What some visits add up to, over legs that are read.
fn driven_anew(
    given: &ProblemData,
    vehicle_type: &VehicleType,
    visits: &[Visit],
    reads: &mut Steps<Reads>,
) -> RunSegment
    requires vehicle_type { IsValidType given.now vehicle_type.now }
    requires some { 0 < length visits.now }
    requires in_range { IsInRange given.now vehicle_type.now (visits_alone visits.now) }
    ensures holds { HoldsRun given.now vehicle_type.now result (visits_alone visits.now) }
    ensures reads { RoseAtMost (length visits.now) reads.old reads.new }
{
    let mut run = OpenRun {
        so_far: RunSegment::visit(given, visits[0]),
        last: visits[0].place(),
    };
    for k in 1..visits.len() {
        let place = visits[k].place();
        let next = RunSegment::visit(given, visits[k]);
        run = run.follow(next, place, place, given, vehicle_type, reads);
    }
    run.so_far
}

/// What some visits add up to, with their whole trips' excess loads counted anew for another capacity. No leg is read.
fn recounted(given: &ProblemData, kept: RunSegment, visits: &[Visit], capacity: u64) -> RunSegment
    requires capacity { capacity ≤ largest }
    requires kept { IsKeptRun given.now visits.now kept }
    ensures { KeepsUnder given.now visits.now capacity kept result }
{
    let TripSegment::Split { head, middle, tail } = kept.trips else {
        return kept;
    };
    let open = (tail.load.load - capacity as i64).max(0);
    let excess = later_excess(given, visits, capacity) - open;
    RunSegment {
        trips: TripSegment::Split {
            head,
            middle: Middle {
                duration: middle.duration,
                excess,
            },
            tail,
        },
        distance: kept.distance,
        prizes: kept.prizes,
    }
}
