//! Moves that put a client behind another one with a reload beside it, at the first depot of least cost.
#![tactic(auto)]

mod answering;
mod best;
mod depot_after;
mod depot_before;
mod trial;

pub use depot_after::DepotAfter;
pub use depot_before::DepotBefore;
