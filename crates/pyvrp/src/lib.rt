//! The routing solver's command: reads an instance, searches routes, prints them and a table, and answers a status.
#![tactic(auto)]

mod options;
mod outcome;
mod report;
mod run;
mod solving;
mod table;
mod words;

pub use command_model::Options;
pub use outcome::{Answer, Outcome};
pub use run::{NO_MEMORY, run_command};
pub use solving::solve_bytes;
