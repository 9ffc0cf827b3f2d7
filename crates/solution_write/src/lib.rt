//! The text of a plan, in the form of CVRPLIB's solution files: a line for each used vehicle, and the cost.
#![tactic(auto)]

mod route;
mod solution;

pub use solution::write_solution;
