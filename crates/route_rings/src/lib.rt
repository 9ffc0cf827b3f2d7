//! Which routes of two plans are exchanged: the used vehicles of a plan in the order of the directions in which their clients lie, and as
//! many neighbouring ones of each plan, moved round until their clients differ least.
#![tactic(auto)]

mod direction;
mod marks;
mod ordering;
mod ring;
mod selection;
mod turning;

pub use marks::mark_clients;
pub use ordering::route_order;
pub use ring::Ring;
pub use selection::Rings;
