//! Random orders of the clients, and random plans that are dealt out by them.
#![tactic(auto)]

mod choosing;
mod dealing;
mod ordering;
mod random_plan;

pub use ordering::random_order;
pub use random_plan::random_solution;
