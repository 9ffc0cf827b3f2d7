//! Why a text is refused.

use crate::rule::Rule;

/// Why a text is refused: its first faulty line, and the first rule that this line breaks.
#[derive(Clone, Copy, Debug, PartialEq, Eq)]
pub struct Refusal {
    /// The line's number, from 1, or 0 for the text as a whole.
    pub line: u64,
    /// The first rule that the line breaks.
    pub rule: Rule,
}
