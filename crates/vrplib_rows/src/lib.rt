//! The lines of an instance text (TSPLIB 95, VRPLIB), judged one by one: what a line is, the values of keywords, and the rows of a
//! section.
#![tactic(auto)]

mod keywords;
mod line;
mod long_row;
mod marks;
mod next_row;
mod numbers;
mod owners;
mod row_checks;
mod row_nodes;
mod row_numbers;
mod row_shape;
mod rows;
mod text_lines;
mod tokens;
mod weight_format;
mod weight_type;

pub use keywords::Keywords;
pub use line::{Line, line_of};
pub use numbers::is_minus_one_token;
pub use rows::Rows;
pub use text_lines::next_line;
pub use tokens::next_token;
pub use weight_format::WeightFormat;
pub use weight_type::WeightType;
