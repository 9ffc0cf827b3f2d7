//! Laying out new lists as views.
ghost use Rattle.std.specs.Prelude.{◌≡◌, ◌<◌, ◌≤◌, IsTrue, Some, length};
ghost use Rattle.problem_data.specs.declared.visit.Visit.TheVariants as visit;
ghost use Rattle.problem_data.specs.Places.{is_client_place, is_depot_place, vehicle_count};
ghost use Rattle.problem_data.specs.Reads.{RoseAtMost};
ghost use Rattle.routing_model.specs.Routes.{list_at};
ghost use Rattle.penalty_cost.specs.Proposals.{CanPush, pushed, side_at, views_at};
ghost use Rattle.new_lists.specs.NewLists.{IsNewList, IsPart, IsRun};
ghost use Rattle.new_lists.specs.Views.{IsOpen, added, back_view, empty_side, front_view, list_views, part_views, route_at, run_view, run_views, visit_view};

use crate::new_list::NewList;
use gain_model::Part;
use move_core::Search;
use penalty_cost::{Proposal, Side};
use problem_data::{Reads, Steps};
use route_cache::{View, client_view, reload_view};

/// Adds the views of a new list to a side that has none yet: the vehicle's own first visits, the parts, and its own last visits. No leg
/// is read.
pub(crate) fn lay_out<'s>(
    proposal: &mut Proposal<'s>,
    side: Side,
    search: &'s Search<'_>,
    list: NewList,
    reads: &mut Steps<Reads>,
)
    requires problem { proposal.old.problem ≡ search.now.problem }
    requires side { side_at proposal.old side ≡ Some (empty_side (route_at search.now list.vehicle)) }
    requires list { IsNewList search.now list }
    ensures views { proposal.new ≡ added proposal.old side (list_views search.now list) }
    ensures reads { RoseAtMost 0 reads.old reads.new }
{
    push(proposal, side, front(search, list.vehicle, list.left));
    push_part(proposal, side, search, list.one, reads);
    push_part(proposal, side, search, list.two, reads);
    push_part(proposal, side, search, list.three, reads);
    push(proposal, side, back(search, list.vehicle, list.right));
}

/// Adds the view of a part, if it has visits. No leg is read.
fn push_part<'s>(
    proposal: &mut Proposal<'s>,
    side: Side,
    search: &'s Search<'_>,
    part: Part,
    reads: &mut Steps<Reads>,
)
    requires problem { proposal.old.problem ≡ search.now.problem }
    requires open { IsOpen (side_at proposal.old side) }
    requires part { IsPart search.now part }
    ensures views { proposal.new ≡ added proposal.old side (part_views search.now part) }
    ensures reads { RoseAtMost 0 reads.old reads.new }
{
    match part {
        Part::Run {
            vehicle,
            first,
            end,
        } => push_run(proposal, side, search, vehicle, first, end, reads),
        Part::Client(client) => push(proposal, side, client_view(search.data(), client)),
        Part::Reload(depot) => push(proposal, side, reload_view(search.data(), depot)),
    }
}

/// Adds the view of a run, if it has visits. No leg is read.
fn push_run<'s>(
    proposal: &mut Proposal<'s>,
    side: Side,
    search: &'s Search<'_>,
    vehicle: u32,
    first: u32,
    end: u32,
    reads: &mut Steps<Reads>,
)
    requires problem { proposal.old.problem ≡ search.now.problem }
    requires open { IsOpen (side_at proposal.old side) }
    requires run { IsRun search.now vehicle first end }
    ensures views { proposal.new ≡ added proposal.old side (run_views (route_at search.now vehicle) first end) }
    ensures reads { RoseAtMost 0 reads.old reads.new }
{
    if first == end {
        return;
    }
    push(proposal, side, run(search, vehicle, first, end, reads));
}

/// A vehicle's start and first visits.
fn front<'s>(search: &'s Search<'_>, vehicle: u32, left: u32) -> View<'s>
    requires vehicle { vehicle < vehicle_count search.now.problem }
    requires left { left ≤ length (list_at search.now.routes vehicle) }
    ensures { result ≡ front_view (route_at search.now vehicle) left }
{
    search.route(vehicle).before(left)
}

/// A vehicle's last visits and its end.
fn back<'s>(search: &'s Search<'_>, vehicle: u32, right: u32) -> View<'s>
    requires vehicle { vehicle < vehicle_count search.now.problem }
    requires right { right ≤ length (list_at search.now.routes vehicle) }
    ensures { result ≡ back_view (route_at search.now vehicle) right }
{
    let route = search.route(vehicle);
    route.visits();
    route.after(right + 1)
}

/// Some of a vehicle's visits. No leg is read.
fn run<'s>(
    search: &'s Search<'_>,
    vehicle: u32,
    first: u32,
    end: u32,
    reads: &mut Steps<Reads>,
) -> View<'s>
    requires vehicle { vehicle < vehicle_count search.now.problem }
    requires some { first < end }
    requires in_list { end ≤ length (list_at search.now.routes vehicle) }
    ensures view { result ≡ run_view (route_at search.now vehicle) first end }
    ensures reads { RoseAtMost 0 reads.old reads.new }
{
    search.route(vehicle).between(first + 1, end, reads)
}

/// Adds a view to a side with room.
fn push<'s>(proposal: &mut Proposal<'s>, side: Side, view: View<'s>)
    requires next { CanPush proposal.old side view }
    requires room { length (views_at proposal.old side) < 8 }
    ensures { proposal.new ≡ pushed proposal.old side view.entry }
{
    let Ok(()) = proposal.push(side, view) else {
        unreachable!()
    };
}
