//! How an instance is read and searched where nothing else is said.
ghost use Rattle.std.specs.Prelude.{◌≡◌, ◌≤◌};
ghost use Rattle.command_model.specs.PlainSearch.{options_of};
ghost use Rattle.pyvrp.specs.Solving.{AreOptions, iteration_limit};
ghost use Rattle.pyvrp.specs.inside.Asked.{shown};

use crate::words::Asked;
use command_model::Options;
use genetic::{GeneticParams, NeighbourhoodParams, Params, PenaltyParams, PopulationParams};
use vrp_num::Rounding;

/// Sizes of a population, and what is asked of the diversity of parents.
const POPULATION: PopulationParams = PopulationParams {
    min_pop_size: 25,
    generation_size: 40,
    nb_elite: 4,
    nb_close: 5,
    lb_diversity: 100,
    ub_diversity: 500,
};

/// The first weights, and how they change.
const PENALTY: PenaltyParams = PenaltyParams {
    init_load: 20,
    init_warp: 6,
    init_distance: 6,
    increase: 1340,
    decrease: 320,
    target: 430,
    between: 50,
};

/// How often children are repaired, and when the population begins anew.
const GENETIC: GeneticParams = GeneticParams {
    repair_probability: 800,
    repair_booster: 12,
    nb_iter_no_improvement: 20_000,
};

/// How many neighbours a client has, and by which weights they are near.
const NEIGHBOURHOOD: NeighbourhoodParams = NeighbourhoodParams {
    nb_granular: 40,
    weight_wait_time: 200,
    weight_time_warp: 1000,
};

/// The options that the words ask for: distances rounded to the nearest, so many iterations in all, and the default parameters.
/// Condition: there are no more iterations than may be asked for.
pub fn options_of(asked: &Asked<'_>) -> Options
    requires { asked.now.iterations ≤ iteration_limit }
    ensures options { result ≡ options_of (shown asked.now) }
    ensures within { AreOptions result }
{
    Options {
        seed: asked.seed,
        mode: Rounding::Round,
        per_client: false,
        params: Params {
            population: POPULATION,
            penalty: PENALTY,
            genetic: GENETIC,
            neighbourhood: NEIGHBOURHOOD,
            max_iterations: u64::from(asked.iterations),
            no_improvement: None,
        },
    }
}
