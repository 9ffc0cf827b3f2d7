//! Descents in random orders of the clients, with what all descents of a run share.
#![tactic(auto)]

mod random_descents;

pub use random_descents::RandomDescents;
