//! Tests of neighbour lists.
#![tactic(auto)]

#[cfg(test)]
mod neighbour_lists;
