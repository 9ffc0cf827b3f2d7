//! The population of a genetic search: a list of feasible and a list of infeasible plans, each with a least and a greatest size, and the
//! best feasible plan that was added (after Vidal and others 2012).
#![tactic(auto)]

mod best_plan;
mod plans;
mod score;
mod selection;
mod tournaments;

pub use genetic_model::PopulationParams;
pub use plan_differences::broken_pairs;
pub use plans::Population;
