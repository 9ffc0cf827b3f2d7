//! The place of least cost.
ghost use Rattle.std.specs.Prelude.{IfOk};
ghost use Rattle.penalty_cost.specs.Plans.{IsWeighed};
ghost use Rattle.genetic_model.specs.Insertion.{insertions};
ghost use Rattle.least_insertions.specs.inside.Places.{IsBestOf, IsMissingIn};

use crate::positions::{Place, best_position};
use crate::vehicles::used_and_least;
use problem_data::{NoMemory, ProblemData, Reads, Steps, VisitList};
use routing_model::Weights;
use std::alloc::Global;

/// The place of a missing client at which the plan costs least: vehicles and positions ascending, the first on a tie. Of the unused
/// vehicles of a type only the least counts. None where there is no vehicle.
pub(crate) fn least_place(
    alloc: Global,
    given: &ProblemData,
    weights: Weights,
    routes: &[VisitList],
    client: u32,
    reads: &mut Steps<Reads>,
) -> Result<Option<Place>, NoMemory>
    requires missing { IsMissingIn given.now routes.now client }
    requires weights { IsWeighed weights }
    ensures { IfOk result (λ r. IsBestOf given.now weights routes.now client r (insertions given.now routes.now client)) }
{
    let vehicles = used_and_least(alloc, given, routes)?;
    let mut best = None;
    for vehicle in &vehicles {
        best = best_position(alloc, given, weights, routes, *vehicle, client, best, reads)?;
    }
    Ok(best)
}
