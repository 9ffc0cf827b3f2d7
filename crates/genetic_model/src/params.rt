//! The parameters of a genetic search.

/// Sizes of the population, and what is asked of its diversity, per thousand.
#[derive(Clone, Copy, Debug, PartialEq, Eq)]
pub struct PopulationParams {
    pub min_pop_size: u32,
    pub generation_size: u32,
    pub nb_elite: u32,
    pub nb_close: u32,
    pub lb_diversity: u32,
    pub ub_diversity: u32,
}

/// The first weights, and how they change; factors and shares are per thousand.
#[derive(Clone, Copy, Debug, PartialEq, Eq)]
pub struct PenaltyParams {
    pub init_load: u64,
    pub init_warp: u64,
    pub init_distance: u64,
    pub increase: u64,
    pub decrease: u64,
    pub target: u64,
    pub between: u64,
}

/// How often children are repaired, and when the search begins anew.
#[derive(Clone, Copy, Debug, PartialEq, Eq)]
pub struct GeneticParams {
    pub repair_probability: u32,
    pub repair_booster: u64,
    pub nb_iter_no_improvement: u64,
}

/// How many neighbours a client has, and by which weights they are near.
#[derive(Clone, Copy, Debug, PartialEq, Eq)]
pub struct NeighbourhoodParams {
    pub nb_granular: u32,
    pub weight_wait_time: u64,
    pub weight_time_warp: u64,
}

/// All parameters of a run.
#[derive(Clone, Copy, Debug, PartialEq, Eq)]
pub struct Params {
    pub population: PopulationParams,
    pub penalty: PenaltyParams,
    pub genetic: GeneticParams,
    pub neighbourhood: NeighbourhoodParams,
    pub max_iterations: u64,
    pub no_improvement: Option<u64>,
}
