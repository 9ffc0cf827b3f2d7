//! The descents of one problem by the same neighbours.
ghost use Rattle.std.specs.Prelude.{◌≡◌, [], ◌∷◌, IfOk, IsTrue, OnOk, map};
ghost use Rattle.penalty_cost.specs.Plans.{IsWeighed};
ghost use Rattle.routing_model.specs.Lawful.{is_lawful};
ghost use Rattle.search_model.specs.Kinds.{all_kinds};
ghost use Rattle.genetic_model.specs.RandomDescent.{random_descent};
ghost use Rattle.genetic_model.specs.Ranges.{IsNeighbourhoodInRange};
ghost use Rattle.random_descents.specs.Rises.{RoseOver};

use genetic_model::NeighbourhoodParams;
use granular::{Neighbours, Proximity, neighbours};
use local_search::descend;
use move_core::{Kit, Operator, Search};
use problem_data::{NoMemory, ProblemData, Reads, Solution, Steps};
use random_plans::random_order;
use routing_model::Weights;
use std::alloc::Global;
use std::marker::Model;
use std::thread::Threads;
use vrp_num::Xor128;

/// What the descents of a problem share: the neighbours of each client.
#[derive(Drop)]
pub struct RandomDescents<'d> {
    alloc: Global,
    given: &'d ProblemData,
    params: NeighbourhoodParams,
    near: Neighbours,
}

impl<'d> Model for RandomDescents<'d> {
    ghost use Rattle.std.specs.Prelude.{◌≡◌};
    ghost use Rattle.genetic_model.specs.RandomDescent.{near_lists};
    ghost use Rattle.random_descents.specs.Shared.{Shared};

    ghost Value = { Shared };

    ghost view = { λ a. record { problem = a.given.now; params = a.params } };

    ghost invariant = { λ a. a.near ≡ near_lists a.given.now a.params };
}

impl<'d> RandomDescents<'d> {
    /// Finds the neighbours of each client. Condition: the parameters are within their ranges. Refused only where memory runs out.
    pub fn new<R: Threads + Sync>(
        rt: &R,
        alloc: Global,
        given: &'d ProblemData,
        params: NeighbourhoodParams,
    ) -> Result<RandomDescents<'d>, NoMemory>
        requires { IsNeighbourhoodInRange params }
        ensures { IfOk result (λ r. r ≡ record { problem = given.now; params = params }) }
    {
        let weights = Proximity {
            wait: params.weight_wait_time,
            warp: params.weight_time_warp,
        };
        let near = neighbours(rt, alloc, given, params.nb_granular, weights)?;
        Ok(RandomDescents {
            alloc,
            given,
            params,
            near,
        })
    }

    /// The plan descended by the kit's moves in a random order of the clients, which is drawn first.
    ///
    /// Conditions: the plan is lawful, no weight exceeds 10^9, and the kit has an operator of each kind, in order; they stay. Refused only
    /// where memory runs out; some words may then have been drawn.
    pub fn descend(
        &self,
        plan: &Solution,
        weights: Weights,
        kit: &mut Kit,
        generator: &mut Xor128,
        reads: &mut Steps<Reads>,
    ) -> Result<Solution, NoMemory>
        requires lawful { IsTrue (is_lawful self.now.problem plan.now.routes) }
        requires weights { IsWeighed weights }
        requires kinds { map kind_of kit.old.items ≡ all_kinds }
        ensures kinds { map kind_of kit.new.items ≡ all_kinds }
        ensures plan { IfOk result (λ r. r.routes ≡ (random_descent self.now.problem self.now.params weights plan.now.routes generator.old).routes) }
        ensures state { OnOk result (generator.new ≡ (random_descent self.now.problem self.now.params weights plan.now.routes generator.old).state) }
        ensures rises { OnOk result (RoseOver self.now.problem self.now.params ((random_descent self.now.problem self.now.params weights plan.now.routes generator.old).start ∷ []) (map tally_of kit.old.items) (map tally_of kit.new.items)) }
        ensures lawful { IfOk result (λ r. IsTrue (is_lawful self.now.problem r.routes)) }
    {
        let order = random_order(self.alloc, self.given, generator)?;
        let mut search = Search::new(self.alloc, self.given, plan, weights, reads)?;
        descend(&mut search, kit, &self.near, order.as_slice(), reads)?;
        search.soundness();
        search.solution()
    }
}
