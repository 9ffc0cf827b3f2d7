//! Stops of one trip, whose release isn't applied yet.
ghost use Rattle.std.specs.Prelude.{◌≡◌};
ghost use Rattle.trips.specs.Conditions.{CanClosePiece, CanMergePieces, IsSoundMiddle, IsSoundPiece};
ghost use Rattle.trips.specs.Merging.{closed_piece, merged_piece};

use crate::middle::Middle;
use segments::{DurationSegment, LoadSegment, Segment};

/// Stops without a reload between them, whose release isn't applied yet.
#[derive(Clone, Copy, Debug, PartialEq, Eq)]
pub struct Piece {
    /// The drive of its stops; the departure isn't held back yet.
    pub duration: DurationSegment,
    /// The load of its clients.
    pub load: LoadSegment,
    /// The largest release of its clients, from 0 to 10^12: the trip departs no earlier.
    pub release: i64,
}

impl Piece {
    /// Both in one trip, `right` behind `self`, with a leg of duration `travel` between them.
    #[inline(always)]
    pub(crate) fn merge(self, right: Piece, travel: i64) -> Piece
        requires { CanMergePieces self right travel }
        ensures value { result ≡ merged_piece self right travel }
        ensures sound { IsSoundPiece result }
    {
        Piece {
            duration: self.duration.merge(right.duration, travel),
            load: self.load.merge(right.load, travel),
            release: self.release.max(right.release),
        }
    }

    /// The piece as a whole trip.
    pub(crate) fn close(self, capacity: u64) -> Middle
        requires { CanClosePiece self capacity }
        ensures value { result ≡ closed_piece self capacity }
        ensures sound { IsSoundMiddle result }
    {
        Middle {
            duration: self.duration.released(self.release),
            excess: (self.load.load - capacity as i64).max(0),
        }
    }
}
