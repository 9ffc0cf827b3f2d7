//! What a descent remembers of its turns and of its moves, so that later passes leave out what no move touched.
#![tactic(auto)]

mod memory;
mod pairs;

pub use memory::Memory;
