//! How much two plans differ: what stands beside each client of a plan, and the pairs of a client and a side at which two plans differ
//! (broken pairs, the distance of Vidal and others 2012).
#![tactic(auto)]

mod comparison;
mod filling;
mod flanks;
mod laws;

pub use comparison::{broken_between, broken_pairs};
pub use filling::flanks_of;
pub use flanks::{DEPOT, Flanks, NONE};
pub use laws::broken_pairs_are_mutual;
