//! What putting a client behind another one would change, with a reload directly before it or directly after it.
#![tactic(auto)]

mod beside;
mod ending;
mod gaps;
mod lists_after;
mod lists_before;
mod put;
mod reloads;
mod seats;

pub use beside::Beside;
pub use put::put_lists;
pub use reloads::may_reload;
pub use seats::{Seats, seats_of};
