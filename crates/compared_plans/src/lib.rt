//! Lists of plans of which each keeps in how many pairs of a client and a side it differs from each other one.
#![tactic(auto)]

mod comparing;
mod duplicates;
mod item;
mod list;
mod removing;

pub use list::ComparedPlans;
