//! The best places of a list for a client, also where one of the list's visits goes.
#![tactic(auto)]

mod insertion;
mod places;
mod spot;
mod without;

pub use insertion::{gone, place_at};
pub use places::{ThreePlaces, three_places};
pub use spot::Spot;
pub use without::best_without;
