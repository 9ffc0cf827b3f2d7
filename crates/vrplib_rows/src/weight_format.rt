//! How legs in the text are laid out.

/// How legs in the text are laid out.
#[derive(Clone, Copy, Debug, PartialEq, Eq)]
pub enum WeightFormat {
    /// The whole table, row by row.
    FullMatrix,
    /// The lower triangle without its diagonal, row by row.
    LowerRow,
    /// The upper triangle without its diagonal, row by row.
    UpperRow,
    /// A format that isn't read.
    Other,
}
