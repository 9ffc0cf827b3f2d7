//! Where a line stands.

use crate::section::Section;

/// Where a line stands.
#[derive(Clone, Copy, Debug, PartialEq, Eq)]
pub enum Position {
    /// In no section.
    Outside,
    /// In a section that is passed over.
    PassedOver,
    /// In a section whose rows are read.
    Within(Section),
}
