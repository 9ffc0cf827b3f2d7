//! Small problems for tests, each with its definition and proved to be valid.
#![tactic(auto)]

mod three_clients;
mod three_types;
mod two_trips;
mod two_vehicles;

pub use three_clients::problem_of_three_clients;
pub use three_types::problem_of_three_types;
pub use two_trips::problem_of_two_trips;
pub use two_vehicles::problem_of_two_vehicles;
