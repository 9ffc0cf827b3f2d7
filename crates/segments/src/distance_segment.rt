//! Segments of a distance.
use crate::segment::Segment;

/// How long the legs of a run of stops are together.
#[derive(Clone, Copy, Debug, PartialEq, Eq)]
pub struct DistanceSegment {
    /// The sum of the legs, from 0 to 10^16.
    pub distance: i64,
}

impl Segment for DistanceSegment {
    ghost use Rattle.std.specs.Prelude.{◌≡◌, ℕ};
    ghost use Rattle.segments.specs.Totals.{IsJoint};
    ghost use Rattle.segments.specs.Distance.{IsSoundDistance, IsWithinDistance, JoinsLengths, StandsForNoStop, StandsForOneStop, merged_distance, no_distance};
    ghost use Rattle.segments.specs.Laws.{no_distance-before, no_distance-after, merged_distance-assoc};

    ghost is_sound = { IsSoundDistance };

    ghost is_within = { IsWithinDistance };

    ghost nothing = { no_distance };

    ghost merged = { merged_distance };

    /// The segment of no stops. It is also that of each stop alone, since one stop has no leg.
    fn empty() -> Self
        ensures value { result ≡ no_distance }
        ensures sound { IsSoundDistance result }
        ensures stands { StandsForNoStop result }
        ensures alone { StandsForOneStop result }
    {
        DistanceSegment { distance: 0 }
    }

    /// The segment of both, `right` behind `self`: both distances and the joint.
    fn merge(self, right: Self, joint: i64) -> Self
        requires left { IsSoundDistance self }
        requires right { IsSoundDistance right }
        requires joint { IsJoint joint }
        requires within { IsWithinDistance (merged_distance self right joint) }
        ensures value { result ≡ merged_distance self right joint }
        ensures sound { IsSoundDistance result }
        ensures joins { JoinsLengths self right joint result }
    {
        DistanceSegment {
            distance: self.distance + right.distance + joint,
        }
    }

    ghost nothing_before = { no_distance-before };

    ghost nothing_after = { no_distance-after };

    ghost associative = { merged_distance-assoc };
}
