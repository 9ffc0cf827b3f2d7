//! The positions of a list.
ghost use Rattle.std.specs.Prelude.{◌≡◌, ℕ, ◌<◌, ◌++◌, [], ◌∷◌, IfOk, List, length};
ghost use Rattle.problem_data.specs.declared.problem.Problem.{Problem};
ghost use Rattle.problem_data.specs.Reads.{RoseAtMost};
ghost use Rattle.penalty_cost.specs.Plans.{IsWeighed};
ghost use Rattle.routing_model.specs.declared.weights.Weights.{Weights as WeightsOf};
ghost use Rattle.routing_model.specs.Routes.{Routes};
ghost use Rattle.genetic_model.specs.Insertion.{insertions_into};
ghost use Rattle.least_insertions.specs.inside.Places.{IsBestOf, IsPlace, IsMissingIn, plan_at};

use penalty_cost::route_cost;
use problem_data::{NoMemory, ProblemData, Reads, Steps, Visit, VisitList};
use routing_model::Weights;
use std::alloc::Global;

/// A position of a vehicle's list, and by how much more the vehicle costs with a client there.
#[derive(Clone, Copy)]
pub(crate) struct Place {
    pub(crate) vehicle: u32,
    pub(crate) position: u32,
    pub(crate) growth: i128,
}

/// The better of two places: the one of less growth, the first on a tie, or the one that there is.
fn better(best: Option<Place>, place: Place) -> Option<Place>
    ensures { (p : Problem) (w : WeightsOf) (routes : Routes) (c : ℕ) (plans : List Routes) → IsBestOf p w routes c best plans → IsPlace p w routes c place → IsBestOf p w routes c result (plans ++ plan_at routes c place ∷ []) }
{
    match best {
        Some(kept) => {
            if place.growth < kept.growth {
                Some(place)
            } else {
                Some(kept)
            }
        }
        None => Some(place),
    }
}

/// The best of a place and the positions of a vehicle's list for a client, the first on a tie.
pub(crate) fn best_position(
    alloc: Global,
    given: &ProblemData,
    weights: Weights,
    routes: &[VisitList],
    vehicle: u32,
    client: u32,
    before: Option<Place>,
    reads: &mut Steps<Reads>,
) -> Result<Option<Place>, NoMemory>
    requires missing { IsMissingIn given.now routes.now client }
    requires weights { IsWeighed weights }
    requires vehicle { vehicle < length routes.now }
    ensures { IfOk result (λ r. (plans : List Routes) → IsBestOf given.now weights routes.now client before plans → IsBestOf given.now weights routes.now client r (plans ++ insertions_into routes.now client vehicle)) }
{
    let visits = routes[vehicle as usize].items();
    let cost = route_cost(given, vehicle, visits, weights, reads);
    let mut list = Vec::from_slice(alloc, visits)?;
    let mut best = before;
    for position in 0..visits.len() as u32 + 1 {
        list.insert(position as usize, Visit::Client(client))?;
        let growth = route_cost(given, vehicle, list.as_slice(), weights, reads) - cost;
        list.remove(position as usize);
        best = better(
            best,
            Place {
                vehicle,
                position,
                growth,
            },
        );
    }
    Ok(best)
}
