//! What a move changes.
use crate::layout::Layout;

/// New lists of one vehicle, or of two, the runs of each then being of the other's list.
#[derive(Clone, Copy)]
pub enum Change {
    One {
        vehicle: u32,
        layout: Layout,
    },
    Two {
        first: u32,
        second: u32,
        one: Layout,
        two: Layout,
    },
}
