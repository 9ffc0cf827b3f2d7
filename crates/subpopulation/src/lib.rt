//! A list of the plans of a population: feasible ones, or infeasible ones. It keeps the plans compared with one another, with what they
//! cost, and purges itself where it grows too long.
#![tactic(auto)]

mod list;
mod purging;
mod weighing;

pub use list::Subpopulation;
