//! A side of a proposal.
ghost use Rattle.std.specs.Prelude.{◌≡◌, ◌<◌, ◌≤◌, ◌++◌, [], ◌∷◌, ◌↔◌, pos, ◌+ℤ◌, ◌≤ℤ◌, IsOk, OnOk, OnErr, length, map, if◌then◌else◌};
ghost use Rattle.problem_data.specs.Reads.{RoseAtMost};
ghost use Rattle.routing_model.specs.Listed.{IsListed};
ghost use Rattle.penalty_cost.specs.Plans.{IsWeighed};
ghost use Rattle.penalty_cost.specs.Proposals.{part_of};
ghost use Rattle.penalty_cost.specs.inside.Sides.{IsSide, change_of, most_change};
ghost use Rattle.joined_views.specs.Views.{lent_by, views_reads};

use crate::full::Full;
use crate::kept_costs::kept_whole;
use crate::side_parts::SideParts;
use crate::vehicle_cost::whole_cost;
use arrayvec::ArrayVec;
use gain_model::Part;
use joined_views::{lends_some, lent_prizes, new_whole};
use problem_data::{ProblemData, Reads, Steps, VehicleType, Visit};
use route_cache::{Route, View};
use routing_model::Weights;
use trips::WholeRoute;

/// A vehicle's route, and the views that are to be its new list.
#[derive(Drop)]
pub struct ProposedSide<'r> {
    pub(crate) vehicle: u32,
    pub(crate) vehicle_type: &'r VehicleType,
    /// What the route's list adds up to.
    pub(crate) whole: WholeRoute,
    pub(crate) visits: &'r [Visit],
    pub(crate) views: ArrayVec<View<'r>, 8, &'r ProblemData>,
}

impl<'r> ProposedSide<'r> {
    /// No view yet.
    pub(crate) fn new(route: &'r Route<'r>) -> ProposedSide<'r>
        ensures side { IsSide route.now.problem result.vehicle result.vehicle_type.now result.whole result.visits.now result.views.items }
        ensures vehicle { result.vehicle ≡ route.now.vehicle }
        ensures visits { result.visits.now ≡ route.now.visits }
        ensures views { result.views.items ≡ [] }
    {
        let given = route.data();
        let vehicle = route.vehicle();
        ProposedSide {
            vehicle,
            vehicle_type: given.vehicle_type(vehicle),
            whole: kept_whole(route),
            visits: route.visits(),
            views: ArrayVec::new_in(given),
        }
    }

    /// One view more at the end.
    pub(crate) fn push(&mut self, view: View<'r>) -> Result<(), Full>
        ensures variant { IsOk result ↔ (length self.old.views.items < 8) }
        ensures ok { OnOk result (self.new.views.items ≡ self.old.views.items ++ view.entry ∷ []) }
        ensures err { OnErr result (self.new.views.items ≡ self.old.views.items) }
        ensures vehicle { self.new.vehicle ≡ self.old.vehicle }
        ensures vehicle_type { self.new.vehicle_type ≡ self.old.vehicle_type }
        ensures whole { self.new.whole ≡ self.old.whole }
        ensures visits { self.new.visits ≡ self.old.visits }
    {
        match self.views.try_push(view) {
            Ok(()) => Ok(()),
            Err(_) => Err(Full),
        }
    }

    /// How much more the vehicle costs with the new list, prizes of the clients included.
    pub(crate) fn change(
        &self,
        given: &ProblemData,
        weights: Weights,
        reads: &mut Steps<Reads>,
    ) -> i128
        requires side { IsSide given.now self.now.vehicle self.now.vehicle_type.now self.now.whole self.now.visits.now self.now.views.items }
        requires listed { IsListed given.now (lent_by self.now.views.items) }
        requires weights { IsWeighed weights }
        ensures value { result ≡ change_of given.now weights self.now.vehicle_type.now self.now.visits.now (lent_by self.now.views.items) }
        ensures not_small { pos 0 ≤ℤ (pos most_change +ℤ result) }
        ensures not_large { result ≤ℤ pos most_change }
        ensures reads { RoseAtMost (views_reads given.now self.now.vehicle_type.now self.now.views.items) reads.old reads.new }
    {
        given.validity();
        let views = self.views.as_slice();
        let new = new_whole(given, self.vehicle_type, views, reads);
        let used = !self.visits.is_empty();
        let old_cost = whole_cost(given, self.vehicle_type, used, self.whole, weights);
        let new_cost = whole_cost(given, self.vehicle_type, lends_some(views), new, weights);
        (new_cost + u128::from(self.whole.prizes)) as i128
            - (old_cost + u128::from(new.prizes)) as i128
    }

    /// By how much more at least the vehicle costs with the new list, prizes of the clients included. No leg is read.
    pub(crate) fn least_change(&self, given: &ProblemData, weights: Weights) -> i128
        requires side { IsSide given.now self.now.vehicle self.now.vehicle_type.now self.now.whole self.now.visits.now self.now.views.items }
        requires room { length self.now.views.items ≤ 8 }
        requires listed { IsListed given.now (lent_by self.now.views.items) }
        requires weights { IsWeighed weights }
        ensures least { result ≤ℤ change_of given.now weights self.now.vehicle_type.now self.now.visits.now (lent_by self.now.views.items) }
        ensures not_small { pos 0 ≤ℤ (pos most_change +ℤ result) }
        ensures not_large { result ≤ℤ pos most_change }
    {
        given.validity();
        let used = !self.visits.is_empty();
        let views = self.views.as_slice();
        let old_cost = whole_cost(given, self.vehicle_type, used, self.whole, weights);
        let new_cost = least_cost(self.vehicle_type, lends_some(views));
        (u128::from(new_cost) + u128::from(self.whole.prizes)) as i128
            - (old_cost + u128::from(lent_prizes(given, views))) as i128
    }

    /// The vehicle, and its views as parts.
    pub(crate) fn parts(&self) -> SideParts
        requires { length self.now.views.items ≤ 8 }
        ensures { result ≡ record { vehicle = self.now.vehicle; parts = map part_of self.now.views.items } }
    {
        let mut parts = SideParts::new(self.vehicle);
        for view in self.views.as_slice() {
            parts.push(part_of(view));
        }
        parts
    }
}

/// The least cost of a vehicle that is used, or isn't.
fn least_cost(vehicle_type: &VehicleType, used: bool) -> u64
    ensures { result ≡ (if used then vehicle_type.now.fixed else 0) }
{
    if used { vehicle_type.fixed } else { 0 }
}

/// A view as a part.
fn part_of(view: &View<'_>) -> Part
    ensures { result ≡ part_of view.now }
{
    view.validity();
    if let Some(vehicle) = view.vehicle() {
        return Part::Run {
            vehicle,
            first: view.first(),
            end: view.end(),
        };
    }
    match view.visits()[0] {
        Visit::Client(place) => Part::Client(place),
        Visit::Reload(depot) => Part::Reload(depot),
    }
}
