//! Where the selected routes of two parents begin.

/// The places in the orders of the first and the second parent's routes at which the selected ones begin.
#[derive(Clone, Copy, Debug, PartialEq, Eq)]
pub struct Starts {
    pub first: u32,
    pub second: u32,
}
