//! Gains of moves, what the operators that find them have to answer and to keep, and how many legs they may read. Definitions,
//! which contracts cite, with the parts of new lists as plain types.
#![tactic(auto)]

mod laws;
mod part;
mod part_default;

pub use laws::{
    bases_are_enough, kept_places_are_enough, passes_go_on, swaps_by_growth,
    taken_moves_change_lists,
};
pub use part::{Part, Side};
