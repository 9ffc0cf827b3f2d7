//! Missing clients are inserted where the plan then costs least.
#![tactic(auto)]

mod completing;
mod least_place;
mod missing;
mod positions;
mod vehicles;

pub use completing::completed;
