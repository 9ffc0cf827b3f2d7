//! What moves of reloads would change.
#![tactic(auto)]

mod removing;

pub use removing::reload_out;
