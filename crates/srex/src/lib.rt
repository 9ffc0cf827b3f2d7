//! Random orders of the clients and random plans, and the exchange of routes between two plans (after Nagata and Kobayashi 2010).
#![tactic(auto)]

mod child;
mod exchanging;
mod selected;

pub use exchanging::exchange;
pub use random_plans::{random_order, random_solution};
