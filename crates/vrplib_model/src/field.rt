//! What a token must be.

/// What a token of a row or value must be.
#[derive(Clone, Copy, Debug, PartialEq, Eq)]
pub enum Field {
    /// A whole number.
    Number,
    /// A whole number that is this one.
    Exactly(u64),
    /// A whole number of at most the limit.
    Whole(u64),
    /// A whole number from the first limit to the second.
    Between(u64, u64),
    /// A number that is rounded, and is then at most the limit.
    Rounded(u64),
    /// The same, or -1, which stands for the second number.
    RoundedOr(u64, u64),
    /// A number of at most a million in size, in millionths.
    Coordinate,
    /// A node, or the -1 that ends the section.
    NodeOrEnd,
}
