//! The definitions of the instance text (TSPLIB 95, VRPLIB): what a text is read as, a problem or its first fault. Here stand the
//! types that they speak of, and the law that the problem of each accepted text is valid.
#![tactic(auto)]

mod field;
mod keyword;
mod laws;
mod position;
mod refusal;
mod rule;
mod section;

pub use field::Field;
pub use keyword::{Keyword, is_distance, is_of_vehicles};
pub use laws::accepted_problems_are_valid;
pub use position::Position;
pub use refusal::Refusal;
pub use rule::{Key, Rule};
pub use section::Section;
