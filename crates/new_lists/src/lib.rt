//! New lists of one vehicle or two, by any parts of a plan: what they gain.
#![tactic(auto)]

mod improving;
mod laying;
mod new_list;

pub use improving::improving_gain;
pub use new_list::{NewList, NewLists, nothing};
