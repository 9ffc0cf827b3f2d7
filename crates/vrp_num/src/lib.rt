//! Numbers of a routing solver: rounding of decimal numbers and distances, and random words.
#![tactic(auto)]

mod decimal;
mod number_text;
mod rounding;
mod spelled;
mod square_root;
mod xor128;

pub use decimal::{Decimal, NumberFault};
pub use rounding::{Rounding, euclid, round};
pub use spelled::Spelled;
pub use square_root::root;
pub use xor128::Xor128;
