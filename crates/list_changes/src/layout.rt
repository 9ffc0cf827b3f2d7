//! New lists, by parts of two lists.
ghost use Rattle.std.specs.Prelude.{◌≡◌};
ghost use Rattle.list_changes.specs.Layouts.{has_none};

/// Some visits of a list: from one position, from 0, up to another.
#[derive(Clone, Copy)]
pub struct Span {
    pub first: u32,
    pub end: u32,
}

impl Span {
    /// Whether it has no visits.
    pub fn is_empty(self) -> bool
        ensures { result ≡ has_none self }
    {
        self.first == self.end
    }
}

/// No visits.
pub const NOTHING: Span = Span { first: 0, end: 0 };

/// A new list: a vehicle's own first visits, up to three runs of a list, and its own last visits.
#[derive(Clone, Copy)]
pub struct Layout {
    pub left: u32,
    pub one: Span,
    pub two: Span,
    pub three: Span,
    pub right: u32,
}
