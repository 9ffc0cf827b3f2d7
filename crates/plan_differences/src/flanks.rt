//! What stands beside a client.

/// What stands directly beside a client on its list. A number is a client's place, [`DEPOT`] or [`NONE`].
#[derive(Clone, Copy, Debug, PartialEq, Eq)]
pub struct Flanks {
    pub left: u16,
    pub right: u16,
}

/// A depot stands beside the client: as the start, as the end, or as a reload.
pub const DEPOT: u16 = 65_534;

/// The client isn't visited, so nothing stands beside it.
pub const NONE: u16 = 65_535;

/// What stands beside a client that isn't visited.
pub(crate) const UNVISITED: Flanks = Flanks {
    left: NONE,
    right: NONE,
};
