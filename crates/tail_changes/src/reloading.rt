//! Whether a vehicle may reload as a new list does.
ghost use Rattle.std.specs.Prelude.{◌≡◌, ◌<◌, ◌≤◌, length, slice_range};
ghost use Rattle.std.specs.List.{list_all};
ghost use Rattle.problem_data.specs.Limits.{most_visits};
ghost use Rattle.problem_data.specs.Places.{vehicle_count};
ghost use Rattle.routing_model.specs.Lawful.{is_allowed};
ghost use Rattle.routing_model.specs.Routes.{list_at};
ghost use Rattle.route_cache.specs.Marks.{reloads_in};
ghost use Rattle.list_changes.specs.Layouts.{IsSpan};
ghost use Rattle.tail_changes.specs.Reloading.{may_have, taken};

use list_changes::Span;
use move_core::Search;
use problem_data::{VehicleType, Visit};
use route_cache::Route;

/// Whether a vehicle may reload as a list does that is its own first visits and then a run of another vehicle's: at depots that its type
/// allows, and at most as often. It reads no leg.
pub fn may_take(search: &Search<'_>, vehicle: u32, left: u32, lender: u32, span: Span) -> bool
    requires vehicle { vehicle < vehicle_count search.now.problem }
    requires lender { lender < vehicle_count search.now.problem }
    requires left { left ≤ length (list_at search.now.routes vehicle) }
    requires span { IsSpan (list_at search.now.routes lender) span }
    ensures { result ≡ may_have search.now vehicle (taken search.now.routes vehicle left lender span) }
{
    let lending = search.route(lender);
    let come = reloads_in(lending, span);
    if come == 0 {
        return true;
    }
    let stay = reloads_in(
        search.route(vehicle),
        Span {
            first: 0,
            end: left,
        },
    );
    let given = search.data();
    let vehicle_type = given.vehicle_type(vehicle);
    if stay + come > vehicle_type.reloads {
        return false;
    }
    given.type_of(vehicle) == given.type_of(lender)
        || are_allowed(
            vehicle_type,
            &lending.visits()[span.first as usize..span.end as usize],
        )
}

/// How many reloads there are among some visits of a route.
fn reloads_in(route: &Route<'_>, span: Span) -> u32
    requires in_order { span.first ≤ span.end }
    requires in_list { span.end ≤ length route.now.visits }
    ensures reloads { result ≡ reloads_in (slice_range route.now.visits span.first span.end) }
    ensures few { result ≤ most_visits }
{
    let marks = route.marks();
    marks[span.end as usize].reloads - marks[span.first as usize].reloads
}

/// Whether all reloads among some visits are at depots that a type allows.
fn are_allowed(vehicle_type: &VehicleType, visits: &[Visit]) -> bool
    ensures { result ≡ list_all (is_allowed vehicle_type.now) visits.now }
{
    for visit in visits {
        if !is_allowed(vehicle_type, *visit) {
            return false;
        }
    }
    true
}

/// Whether a visit is a client's, or a reload at a depot that a type allows.
fn is_allowed(vehicle_type: &VehicleType, visit: Visit) -> bool
    ensures { result ≡ is_allowed vehicle_type.now visit }
{
    match visit {
        Visit::Client(_) => true,
        Visit::Reload(depot) => vehicle_type.reload_depots.items().contains(&depot),
    }
}
