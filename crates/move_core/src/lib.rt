//! The lists of a search, the trait of the operators that find moves, and kits of operators.
#![tactic(auto)]

mod applied;
mod look;
mod new_routes;
mod operator;
mod search;
mod tally;

pub use operator::{Kit, Operator};
pub use penalty_cost::{Gain, Part, Side};
pub use routing_model::Weights;
pub use search::Search;
pub use search_model::{Candidate, Kind, Target};
pub use tally::Tally;
