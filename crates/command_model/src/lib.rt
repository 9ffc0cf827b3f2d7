//! What the command prints and answers, as a function of its words and of what the files answered. Definitions, which contracts
//! cite, with the settings and options as plain types.
#![tactic(auto)]

mod options;

pub use options::{Options, Settings};
