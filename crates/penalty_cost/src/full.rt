//! That there is no room for another view.

/// A side has eight views, and there is no room for another.
#[derive(Clone, Copy, Debug, PartialEq, Eq)]
pub struct Full;
