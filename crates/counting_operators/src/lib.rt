//! Tests of the command with operators of a test's own, which stand around the program's operators and count their evaluations.
#![tactic(auto)]

#[cfg(test)]
mod counting;
#[cfg(test)]
mod runs;
