//! The genetic search: a population of plans, from which parents are selected, exchanged, descended and added again.
#![tactic(auto)]

mod breeding;
mod found;
mod iterating;
mod run;
mod solving;

pub use found::Found;
pub use genetic_model::{
    GeneticParams, NeighbourhoodParams, Params, PenaltyParams, PopulationParams,
};
pub use penalties::Penalties;
pub use solving::solve;
