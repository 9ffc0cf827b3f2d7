//! Directions in the plane.

/// A direction and a length in the plane, in millionths of the file's unit.
#[derive(Clone, Copy, Debug, PartialEq, Eq)]
pub struct Vector {
    pub x: i64,
    pub y: i64,
}
