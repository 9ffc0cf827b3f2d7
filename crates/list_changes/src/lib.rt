//! New lists of one vehicle or two, by parts of their lists: what they cost at least, by few legs and before anything is copied, and what
//! they gain.
#![tactic(auto)]

mod aim;
mod bound;
mod change;
mod gap;
mod improving;
mod layout;
mod load;
mod screen;
mod way;

pub use aim::{Aim, aim_of, front_of};
pub use bound::{CUT, capped, is_empty, load_cost};
pub use change::Change;
pub use gap::{Gap, gap_of};
pub use improving::{improving_gain, lists_of};
pub use layout::{Layout, NOTHING, Span};
pub use screen::{is_dear, is_one_dear};
pub use way::{leg_over, place_at, way_gone, way_lent};
