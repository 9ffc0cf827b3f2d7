//! Tests that the command's search is the one whose gains its kit is asked for: operators of the test's own record what each of the
//! program's operators is asked, in order, and a run made of the public calls alone asks the same.
#![tactic(auto)]

pub mod own_run;
pub mod recording;
#[cfg(test)]
mod runs;
