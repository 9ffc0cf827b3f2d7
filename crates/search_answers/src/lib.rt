//! Answers to questions about moves and descents of instances, so that they can be compared with the answers of another program.
#![tactic(auto)]

mod answers;
mod candidates;
mod descents;
mod gains;
mod moves;
mod plain_descent;
mod session;

pub use answers::answers_of;
