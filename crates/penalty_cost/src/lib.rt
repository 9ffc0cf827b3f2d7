//! What plans cost, and what they exceed: each vehicle's list is driven once. And what proposals of new lists gain.
#![tactic(auto)]

mod excess;
mod full;
mod gain;
mod kept_costs;
mod lawful;
mod plan_cost;
mod plan_shape;
mod prizes;
mod proposal;
mod proposed_side;
mod side_parts;
mod totals;
mod vehicle_cost;

pub use excess::assess;
pub use full::Full;
pub use gain::Gain;
pub use gain_model::{Part, Side};
pub use kept_costs::kept_cost;
pub use lawful::{is_lawful, is_required_group};
pub use plan_cost::{route_cost, routes_cost, solution_cost};
pub use plan_shape::is_plan;
pub use proposal::Proposal;
pub use routing_model::{Assessment, Weights};
