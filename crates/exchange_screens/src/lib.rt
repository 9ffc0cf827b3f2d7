//! What an exchange of pieces would change, and which exchanges of a client and a neighbour surely don't lower the cost, before anything
//! is copied.
#![tactic(auto)]

mod across;
mod lent;
mod one_look;
mod piece;
mod put;
mod seat;
mod start;
mod swap;
mod trial;
mod within;

pub use one_look::look;
pub use start::stands_first;
pub use trial::{Trial, change_of};
