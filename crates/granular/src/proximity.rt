//! The weights of a proximity.

/// What waiting and time warp weigh in a proximity, in thousandths of a unit of distance. Each is at most 100,000.
#[derive(Clone, Copy, Debug, PartialEq, Eq)]
pub struct Proximity {
    /// A unit of waiting.
    pub wait: u64,
    /// A unit of time warp.
    pub warp: u64,
}
