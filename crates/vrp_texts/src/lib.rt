//! The texts that the solver prints: plans, tables, fault lines and generated instances. Definitions, which contracts cite, and
//! what the text of a plan tells.
#![tactic(auto)]

mod laws;

pub use laws::{texts_tell_lawful_plans, texts_tell_typed_plans, texts_tell_valid_plans};
