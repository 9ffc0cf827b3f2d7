//! The weights of the excesses, as a search adapts them: they rise where too few plans are without an excess, and fall where enough are.
#![tactic(auto)]

mod counts;
mod penalties;
mod weighting;

pub use genetic_model::PenaltyParams;
pub use penalties::Penalties;
pub use routing_model::{Assessment, Weights};
