//! On which side of a client a new reload comes.

/// On which side of a client a new reload comes.
#[derive(Clone, Copy, PartialEq, Eq)]
pub enum Beside {
    /// Directly before it.
    Before,
    /// Directly after it.
    After,
}
