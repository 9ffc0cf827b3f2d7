//! The excess load of a new list.
ghost use Rattle.std.specs.Prelude.{◌≡◌, ◌-◌, ◌*◌, ◌≤◌, length, slice_range};
ghost use Rattle.problem_data.specs.Limits.{most_visits};
ghost use Rattle.routing_model.specs.Listed.{type_of_vehicle};
ghost use Rattle.routing_model.specs.Load.{excess_load};
ghost use Rattle.list_changes.specs.Layouts.{IsLayout, laid_out};
ghost use Rattle.list_changes.specs.Loads.{IsLoad};
ghost use Rattle.list_changes.specs.inside.Loads.{IsPart, IsSmallLoad};

use crate::layout::{Layout, Span};
use route_cache::Route;

/// What the clients of some visits add up to, and how many reloads there are among the visits.
#[derive(Clone, Copy)]
pub(crate) struct Load {
    pub(crate) delivery: u64,
    pub(crate) pickup: u64,
    pub(crate) reloads: u64,
}

impl Load {
    /// What is left of it without a part of it.
    fn without(self, part: Load) -> Load
        requires { IsPart part self }
        ensures { result ≡ record { delivery = self.delivery - part.delivery; pickup = self.pickup - part.pickup; reloads = self.reloads - part.reloads } }
    {
        Load {
            delivery: self.delivery - part.delivery,
            pickup: self.pickup - part.pickup,
            reloads: self.reloads - part.reloads,
        }
    }
}

/// The load of some visits of a route.
fn load_of(route: &Route<'_>, span: Span) -> Load
    requires in_order { span.first ≤ span.end }
    requires in_list { span.end ≤ length route.now.visits }
    ensures load { IsLoad route.now.problem (slice_range route.now.visits span.first span.end) result }
    ensures small { IsSmallLoad result }
{
    let marks = route.marks();
    let from = marks[span.first as usize];
    let to = marks[span.end as usize];
    Load {
        delivery: (to.delivery - from.delivery) as u64,
        pickup: (to.pickup - from.pickup) as u64,
        reloads: u64::from(to.reloads - from.reloads),
    }
}

/// The load of a new list.
fn laid_load(route: &Route<'_>, lender: &Route<'_>, layout: Layout) -> Load
    requires problem { lender.now.problem ≡ route.now.problem }
    requires layout { IsLayout route.now.visits lender.now.visits layout }
    ensures load { IsLoad route.now.problem (laid_out route.now.visits lender.now.visits layout) result }
    ensures few { result.reloads ≤ 4 * most_visits }
{
    let end = route.visits().len() as u32;
    let whole = load_of(route, Span { first: 0, end });
    let gone = load_of(
        route,
        Span {
            first: layout.left,
            end: layout.right,
        },
    );
    let one = load_of(lender, layout.one);
    let two = load_of(lender, layout.two);
    let three = load_of(lender, layout.three);
    let all = Load {
        delivery: whole.delivery + one.delivery + two.delivery + three.delivery,
        pickup: whole.pickup + one.pickup + two.pickup + three.pickup,
        reloads: whole.reloads + one.reloads + two.reloads + three.reloads,
    };
    all.without(gone)
}

/// By how much a new list exceeds its vehicle's capacity at least: by what all its trips have to carry together.
pub(crate) fn least_excess(route: &Route<'_>, lender: &Route<'_>, layout: Layout) -> u64
    requires problem { lender.now.problem ≡ route.now.problem }
    requires layout { IsLayout route.now.visits lender.now.visits layout }
    ensures { result ≤ excess_load route.now.problem (type_of_vehicle route.now.problem route.now.vehicle) (laid_out route.now.visits lender.now.visits layout) }
{
    let load = laid_load(route, lender, layout);
    let capacity = route.data().vehicle_type(route.vehicle()).capacity;
    load.delivery
        .max(load.pickup)
        .saturating_sub((load.reloads + 1) * capacity)
}
