//! The descent: pass after pass over the candidates of a plan, with boxed operators, until a pass takes none.
#![tactic(auto)]

mod ask;
mod descent;
mod each_kind;
mod each_type;
mod kinds;
mod kit;
mod moves;
mod pair_turns;
mod passes;
mod screens;
mod turns;

pub use descent::descend;
