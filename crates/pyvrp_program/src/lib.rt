//! The command as the program runs it: with a kit of operators for each word.
#![tactic(auto)]

mod program;

pub use program::run_program;
