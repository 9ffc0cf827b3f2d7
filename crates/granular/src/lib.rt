//! The granular neighbourhood: for each client the clients that are nearest in time and space (Vidal and others 2012).
#![tactic(auto)]

mod near_clients;
mod nearest;
mod nears;
mod neighbour_lists;
mod proximity;

pub use near_clients::neighbours;
pub use neighbour_lists::Neighbours;
pub use proximity::Proximity;
