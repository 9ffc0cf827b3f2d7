//! The genetic search as definitions, with its parameters as plain types.
#![tactic(auto)]

mod laws;
mod params;
mod starts;
mod vector;

pub use laws::{
    directions_are_ordered, exchange_is_lawful, purging_ends, run_finds_feasible, run_stays_lawful,
    shifts_settle, triples_tell_neighbours,
};
pub use params::{GeneticParams, NeighbourhoodParams, Params, PenaltyParams, PopulationParams};
pub use starts::Starts;
pub use vector::Vector;
