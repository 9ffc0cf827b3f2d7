//! Moves of clients that needn't all be visited: putting one in, taking one out, and putting one in another's place.
#![tactic(auto)]

mod insert;
mod members;
mod remove;
mod replace;

pub use insert::Insert;
pub use remove::Remove;
pub use replace::Replace;
