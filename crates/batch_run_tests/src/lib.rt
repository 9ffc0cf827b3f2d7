//! Tests of files and sinks: what those in memory hold and take, and the real folder and streams.
#![tactic(auto)]

#[cfg(test)]
mod files_and_sinks;
#[cfg(test)]
mod streams;
