//! Where the legs come from.

/// Where the legs come from.
#[derive(Clone, Copy, Debug, PartialEq, Eq)]
pub enum WeightType {
    /// From the coordinates: `EUC_2D`.
    Euclidean,
    /// From the text: `EXPLICIT`.
    Explicit,
}
