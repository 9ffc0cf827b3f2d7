//! What exchanges of tails would change: what follows a client in its list changes places with what is at a target in another list.
#![tactic(auto)]

mod reloading;
mod tails;

pub use reloading::may_take;
pub use tails::tail_change;
