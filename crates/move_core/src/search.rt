//! The lists of a search.
ghost use Rattle.std.specs.Prelude.{◌≡◌, ◌<◌, ◌≤◌, length, pos, IfOk, IfSome, IsTrue, OnErr, OnOk};
ghost use Rattle.problem_data.specs.Places.{group_at, vehicle_count};
ghost use Rattle.problem_data.specs.Reads.{RoseAtMost};
ghost use Rattle.gain_model.specs.Gains.{MayBeApplied, made};
ghost use Rattle.gain_model.specs.RouteReads.{apply_reads};
ghost use Rattle.routing_model.specs.Cost.{route_cost, solution_cost};
ghost use Rattle.routing_model.specs.Lawful.{is_lawful, is_required_group};
ghost use Rattle.penalty_cost.specs.Plans.{IsDrivablePlan, IsWeighed};
ghost use Rattle.routing_model.specs.Listed.{type_of_vehicle};
ghost use Rattle.routing_model.specs.Routes.{list_at};
ghost use Rattle.search_model.specs.Edits.{position_of, unused_vehicle};
ghost use Rattle.move_core.specs.Looks.{AreHopeless, GivesNothing};
ghost use Rattle.move_core.specs.Searches.{IsSound};
ghost use Rattle.plan_tables.specs.Figures.{largest_rest, rest_of};
ghost use Rattle.plan_tables.specs.Tables.{some_type_reloads};

use crate::applied::change;
use crate::look::Look;
use penalty_cost::{Gain, solution_cost};
use plan_tables::{PlanTables, ProblemTables, lists_in, routes_of};
use problem_data::{NoMemory, ProblemData, Reads, RouteList, Solution, Steps};
use route_cache::Route;
use routing_model::Weights;
use search_model::Kind;
use std::alloc::Global;
use std::marker::Model;

/// Says what holds of a lawful plan, and does nothing.
fn sound_plan(given: &ProblemData, solution: &Solution, weights: Weights)
    requires lawful { IsTrue (is_lawful given.now solution.now.routes) }
    requires weights { IsWeighed weights }
    ensures sound { IsSound (record { problem = given.now; weights = weights; routes = solution.now.routes }) }
    ensures drivable { IsDrivablePlan given.now solution.now.routes }
{
    given.validity();
}

/// The present lists of a search, one route for each vehicle, with their cost by the search's weights. Contracts see the problem, the
/// weights and the lists; what is kept beside them answers each question below in constant time.
#[derive(Drop)]
pub struct Search<'d> {
    alloc: Global,
    given: &'d ProblemData,
    weights: Weights,
    routes: Vec<Route<'d>>,
    cost: i128,
    kept: PlanTables,
    facts: ProblemTables,
    look: Look,
}

impl<'d> Model for Search<'d> {
    ghost use Rattle.std.specs.Prelude.{};
    ghost use Rattle.move_core.specs.Searches.{SearchState};
    ghost use Rattle.plan_tables.specs.Routes.{lists_of};
    ghost use Rattle.move_core.specs.inside.Searches.{IsSearch};

    ghost Value = { SearchState };

    ghost view = { λ a. record { problem = a.given.now; weights = a.weights; routes = lists_of a.routes.items } };

    ghost invariant = { λ a. IsSearch a.given.now a.weights a.routes.items a.cost a.kept a.facts a.look };
}

impl<'d> Search<'d> {
    /// A search that begins with a plan. Conditions: the plan is lawful, and no weight exceeds 10^9. Refused only where memory runs
    /// out.
    pub fn new(
        alloc: Global,
        given: &'d ProblemData,
        solution: &Solution,
        weights: Weights,
        reads: &mut Steps<Reads>,
    ) -> Result<Search<'d>, NoMemory>
        requires lawful { IsTrue (is_lawful given.now solution.now.routes) }
        requires weights { IsWeighed weights }
        ensures { IfOk result (λ search. search ≡ record { problem = given.now; weights = weights; routes = solution.now.routes }) }
    {
        sound_plan(given, solution, weights);
        let routes = routes_of(alloc, given, solution.routes.items(), reads)?;
        let kept = PlanTables::new(alloc, given, routes.as_slice(), weights)?;
        let facts = ProblemTables::new(alloc, given)?;
        Ok(Search {
            alloc,
            given,
            weights,
            cost: solution_cost(given, solution, weights, reads),
            routes,
            kept,
            facts,
            look: Look::nothing(),
        })
    }

    /// The lists as a plan. Refused only where memory runs out.
    pub fn solution(&self) -> Result<Solution, NoMemory>
        ensures { IfOk result (λ solution. solution.routes ≡ self.now.routes) }
    {
        let lists = lists_in(self.alloc, self.routes.as_slice())?;
        Ok(Solution {
            routes: RouteList::from_vec(lists),
        })
    }

    /// Says what holds of each search, and does nothing.
    pub fn soundness(&self)
        ensures { IsSound self.now }
    {
        let _ = &self.cost;
    }

    /// The problem.
    pub fn data(&self) -> &'d ProblemData
        ensures problem { result.now ≡ self.now.problem }
        ensures sound { IsSound self.now }
    {
        self.given
    }

    /// The weights.
    pub fn weights(&self) -> Weights
        ensures weights { result ≡ self.now.weights }
        ensures sound { IsSound self.now }
    {
        self.weights
    }

    /// What the lists cost by the weights.
    pub fn cost(&self) -> i128
        ensures cost { result ≡ pos (solution_cost self.now.problem self.now.weights self.now.routes) }
        ensures sound { IsSound self.now }
    {
        self.cost
    }

    /// The route of a vehicle. Condition: the vehicle is in range.
    pub fn route(&self, vehicle: u32) -> &Route<'d>
        requires { vehicle < vehicle_count self.now.problem }
        ensures problem { result.now.problem ≡ self.now.problem }
        ensures vehicle { result.now.vehicle ≡ vehicle }
        ensures visits { result.now.visits ≡ list_at self.now.routes vehicle }
        ensures sound { IsSound self.now }
    {
        &self.routes[vehicle as usize]
    }

    /// The vehicle that visits a client, and the client's place in its list, from 1. None where it isn't visited.
    pub fn position(&self, client: u32) -> Option<(u32, u32)>
        ensures position { result ≡ position_of self.now.routes client }
        ensures in_range { IfSome result (λ at. at.0 < vehicle_count self.now.problem) }
        ensures placed { IfSome result (λ at. 1 ≤ at.1) }
        ensures within { IfSome result (λ at. at.1 ≤ length (list_at self.now.routes at.0)) }
        ensures sound { IsSound self.now }
    {
        let spots = self.kept.spots.as_slice();
        if client as usize >= spots.len() {
            return None;
        }
        let spot = spots[client as usize];
        if spot.place == 0 {
            None
        } else {
            Some((spot.vehicle, spot.place))
        }
    }

    /// The least unused vehicle of a type. None where each vehicle of the type is used, and where there is no such type.
    pub fn unused(&self, vehicle_type: u32) -> Option<u32>
        ensures unused { result ≡ unused_vehicle self.now.problem self.now.routes vehicle_type }
        ensures in_range { IfSome result (λ vehicle. vehicle < vehicle_count self.now.problem) }
        ensures sound { IsSound self.now }
    {
        let unused = self.kept.unused.as_slice();
        if vehicle_type as usize >= unused.len() {
            return None;
        }
        unused[vehicle_type as usize]
    }

    /// How many visits a vehicle has; 0 where there is no such vehicle.
    pub fn size(&self, vehicle: u32) -> u32
        ensures size { result ≡ length (list_at self.now.routes vehicle) }
        ensures sound { IsSound self.now }
    {
        let sizes = self.kept.sizes.as_slice();
        if vehicle as usize >= sizes.len() {
            return 0;
        }
        sizes[vehicle as usize]
    }

    /// What a used vehicle costs besides its fixed cost and its distance at the unit cost, cut at 2^61; 0 where it is unused.
    /// Condition: the vehicle is in range.
    pub fn rest(&self, vehicle: u32) -> i64
        requires { vehicle < vehicle_count self.now.problem }
        ensures rest { result ≡ pos (rest_of self.now.problem self.now.weights (type_of_vehicle self.now.problem vehicle) (list_at self.now.routes vehicle)) }
        ensures sound { IsSound self.now }
    {
        let rests = self.kept.rests.as_slice();
        rests[vehicle as usize]
    }

    /// What a vehicle costs. Condition: the vehicle is in range.
    pub fn cost_of(&self, vehicle: u32) -> u128
        requires { vehicle < vehicle_count self.now.problem }
        ensures cost { result ≡ route_cost self.now.problem self.now.weights (type_of_vehicle self.now.problem vehicle) (list_at self.now.routes vehicle) }
        ensures sound { IsSound self.now }
    {
        let costs = self.kept.costs.as_slice();
        costs[vehicle as usize]
    }

    /// Whether a group is required: whether exactly one of its members has to be visited. Condition: the group is in range.
    pub fn is_required_group(&self, group: u32) -> bool
        requires { group < length self.now.problem.groups }
        ensures required { result ≡ is_required_group self.now.problem (group_at self.now.problem group) }
        ensures sound { IsSound self.now }
    {
        self.facts.required[group as usize]
    }

    /// Whether vehicles of some type may reload.
    pub fn has_reload_types(&self) -> bool
        ensures reloads { result ≡ some_type_reloads self.now.problem }
        ensures sound { IsSound self.now }
    {
        self.facts.reload_types
    }

    /// Keeps what a look at a client and a neighbour found, in the place of what was kept: marks of exchanges, in their order, whose
    /// move of the client behind the neighbour gives nothing. It is forgotten as the lists change.
    pub fn note_hopeless(&mut self, client: u32, neighbour: u32, hopeless: [bool; 9])
        requires { AreHopeless self.old client neighbour hopeless }
        ensures { self.new ≡ self.old }
    {
        self.look = Look {
            client,
            neighbour,
            hopeless,
        };
    }

    /// Whether it is known of an exchange that its move of a client behind a neighbour gives nothing. Of a kind that is no exchange it
    /// never is.
    pub fn is_hopeless(&self, kind: Kind, client: u32, neighbour: u32) -> bool
        ensures { IsTrue result → GivesNothing self.now kind client neighbour }
    {
        self.look.client == client && self.look.neighbour == neighbour && self.look.has(kind)
    }

    /// Makes the change of a gain. All memory is taken first: where it runs out, the search is as it was.
    ///
    /// Condition: the gain is within the lists, lowers their cost by the weights by its amount, and makes a lawful plan. It reads at
    /// most `apply_reads` legs.
    pub fn apply(&mut self, gain: Gain, reads: &mut Steps<Reads>) -> Result<(), NoMemory>
        requires { MayBeApplied self.old.problem self.old.weights self.old.routes gain }
        ensures ok { OnOk result (self.new ≡ record self.old { routes = made gain self.old.routes }) }
        ensures err { OnErr result (self.new ≡ self.old) }
        ensures reads { RoseAtMost (apply_reads self.old.routes gain) reads.old reads.new }
    {
        change(
            self.alloc,
            self.given,
            self.weights,
            &mut self.routes,
            &mut self.kept,
            &gain,
            reads,
        )?;
        self.cost += gain.amount();
        self.look = Look::nothing();
        Ok(())
    }
}
