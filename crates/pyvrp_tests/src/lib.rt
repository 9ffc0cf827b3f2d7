//! Tests of the command over files and sinks in memory, and of plans of an instance that is read.
#![tactic(auto)]

#[cfg(test)]
mod outside;
#[cfg(test)]
mod plans;
#[cfg(test)]
mod runs;
