//! Plans as texts, for programs that answer questions about them.
#![tactic(auto)]

mod plans;

pub use plans::{plan_of, push_plan};
