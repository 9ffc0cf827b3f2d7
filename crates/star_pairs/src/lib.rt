//! The pair of clients of two lists that changes lists best, each going to its best place in the other list (SWAP*).
#![tactic(auto)]

mod pair;
mod pairs;

pub use pair::{Pair, Turn};
pub use pairs::best_pair;
