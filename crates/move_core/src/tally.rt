//! Counts of tried and applied candidates.

/// How many candidates an operator tried, and how many of its moves were applied. A count at its last value, 2^64 - 1, stays there.
#[derive(Clone, Copy, Debug, PartialEq, Eq)]
pub struct Tally {
    pub tried: u64,
    pub applied: u64,
}
