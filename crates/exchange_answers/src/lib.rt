//! Answers to questions about random plans and exchanges of routes, so that they can be compared with the answers of another program.
#![tactic(auto)]

mod answers;
mod plans;
mod session;

pub use answers::answers_of;
