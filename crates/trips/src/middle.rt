//! Whole trips, one after the other.
ghost use Rattle.std.specs.Prelude.{◌≡◌};
ghost use Rattle.segments.specs.Duration.{StandsForNothing};
ghost use Rattle.trips.specs.Conditions.{CanMergeMiddles, IsSoundMiddle};
ghost use Rattle.trips.specs.Merging.{merged_middle, no_trip};

use segments::{DurationSegment, Segment};

/// Whole trips, with their releases applied.
#[derive(Clone, Copy, Debug, Default, PartialEq, Eq)]
pub struct Middle {
    /// The drive of their stops.
    pub duration: DurationSegment,
    /// What their loads exceed the capacity by, added up, from 0 to 10^16.
    pub excess: i64,
}

impl Middle {
    /// No trip.
    pub(crate) fn none() -> Middle
        ensures value { result ≡ no_trip }
        ensures nothing { StandsForNothing result.duration }
        ensures sound { IsSoundMiddle result }
    {
        Middle {
            duration: DurationSegment::empty(),
            excess: 0,
        }
    }

    /// Both, `right` behind `self`. From an arrival at a depot to the departure there nothing is driven.
    pub(crate) fn merge(self, right: Middle) -> Middle
        requires { CanMergeMiddles self right }
        ensures value { result ≡ merged_middle self right }
        ensures sound { IsSoundMiddle result }
    {
        Middle {
            duration: self.duration.merge(right.duration, 0),
            excess: self.excess + right.excess,
        }
    }
}
