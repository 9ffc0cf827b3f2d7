//! Places of a list.
ghost use Rattle.std.specs.Prelude.{◌≡◌, ◌+◌, ◌<◌, ◌||◌, nat_eq};
ghost use Rattle.star_places.specs.Places.{nowhere};

/// A place of a list, from 0, and how much farther it is with a client there.
#[derive(Clone, Copy)]
pub struct Spot {
    pub growth: i64,
    pub place: u32,
}

/// Farther than it is with any client.
const FAR: i64 = 1 << 40;

/// No place.
pub(crate) const NOWHERE: Spot = Spot {
    growth: FAR,
    place: u32::MAX,
};

impl Spot {
    /// Whether it is directly before or behind the visit at a position.
    pub(crate) fn is_beside(self, position: u32) -> bool
        requires { position < nowhere }
        ensures { result ≡ (nat_eq self.place position || nat_eq self.place (position + 1)) }
    {
        self.place == position || self.place == position + 1
    }
}
