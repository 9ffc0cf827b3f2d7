//! Tests of segments: each public call once.
#![tactic(auto)]

#[cfg(test)]
mod merged_segments;
