//! Tests of the text of a plan: a line for each used vehicle, types and reloads.
#![tactic(auto)]

#[cfg(test)]
mod plans;
