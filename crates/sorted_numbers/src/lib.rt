//! Numbers that are kept in ascending order while others are put in and taken out.
#![tactic(auto)]

mod numbers;

pub use numbers::{MOST_NUMBERS, SortedNumbers};
