//! Reads the text of a routing instance (TSPLIB 95, VRPLIB) into a problem, or names its first fault.
#![tactic(auto)]

mod depots;
mod entries;
mod fleet;
mod groups;
mod legs;
mod problem;
mod profiles;
mod read_fault;
mod reader;
mod reading;
mod whole;

pub use read_fault::ReadFault;
pub use reader::read_instance;
pub use vrplib_model::{Key, Refusal, Rule, accepted_problems_are_valid};
