//! What views of routes add up to when they are joined as a vehicle's new list.
#![tactic(auto)]

mod joined;
mod later_trips;
mod lent_run;
mod open_run;

pub use joined::{lends_some, lent_prizes, new_whole};
