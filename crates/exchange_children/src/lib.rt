//! The two children of an exchange of routes, before missing clients are inserted (after Nagata and Kobayashi 2010).
#![tactic(auto)]

mod children;
mod clashes;
mod exchanged;
mod fitting;
mod groups;
mod membership;
mod sets;
mod tidying;

pub use exchanged::Exchanged;
