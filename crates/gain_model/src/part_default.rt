//! What unused places of a vector of parts hold.
use crate::part::Part;

impl Default for Part {
    /// A part that stands for nothing in particular.
    fn default() -> Part {
        Part::Client(0)
    }
}
