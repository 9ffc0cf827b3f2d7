//! Segments of a load.
use crate::segment::Segment;

/// What a run of clients of one trip loads and unloads.
#[derive(Clone, Copy, Debug, PartialEq, Eq)]
pub struct LoadSegment {
    /// The sum of the deliveries, from 0 to 10^16.
    pub delivery: i64,
    /// The sum of the pickups, from 0 to 10^16.
    pub pickup: i64,
    /// The largest amount on board, at the departure or behind a client, where these clients are a whole trip. From 0 to 10^16.
    pub load: i64,
}

impl LoadSegment {
    ghost use Rattle.std.specs.Prelude.{◌≡◌, ◌≤◌, pos, max};
    ghost use Rattle.segments.specs.Totals.{largest_total};
    ghost use Rattle.segments.specs.Load.{IsSoundLoad, StandsForClient};

    /// The segment of one client. Conditions: neither amount exceeds 10^16.
    pub fn client(delivery: u64, pickup: u64) -> LoadSegment
        requires delivery { delivery ≤ largest_total }
        requires pickup { pickup ≤ largest_total }
        ensures value { result ≡ record { delivery = pos delivery; pickup = pos pickup; load = pos (max delivery pickup) } }
        ensures sound { IsSoundLoad result }
        ensures stands { StandsForClient delivery pickup result }
    {
        LoadSegment {
            delivery: delivery as i64,
            pickup: pickup as i64,
            load: delivery.max(pickup) as i64,
        }
    }
}

impl Segment for LoadSegment {
    ghost use Rattle.std.specs.Prelude.{◌≡◌};
    ghost use Rattle.segments.specs.Totals.{IsJoint};
    ghost use Rattle.segments.specs.Load.{IsSoundLoad, IsWithinLoad, JoinsLoads, StandsForNoLoad, merged_load, no_load};
    ghost use Rattle.segments.specs.Laws.{no_load-before, no_load-after, merged_load-assoc};

    ghost is_sound = { IsSoundLoad };

    ghost is_within = { IsWithinLoad };

    ghost nothing = { no_load };

    ghost merged = { merged_load };

    /// The segment of no clients.
    fn empty() -> Self
        ensures value { result ≡ no_load }
        ensures sound { IsSoundLoad result }
        ensures stands { StandsForNoLoad result }
    {
        LoadSegment {
            delivery: 0,
            pickup: 0,
            load: 0,
        }
    }

    /// The segment of both, `right` behind `self`. The joint plays no part.
    fn merge(self, right: Self, joint: i64) -> Self
        requires left { IsSoundLoad self }
        requires right { IsSoundLoad right }
        requires joint { IsJoint joint }
        requires within { IsWithinLoad (merged_load self right joint) }
        ensures value { result ≡ merged_load self right joint }
        ensures sound { IsSoundLoad result }
        ensures joins { JoinsLoads self right result }
    {
        let _unused = joint;
        LoadSegment {
            delivery: self.delivery + right.delivery,
            pickup: self.pickup + right.pickup,
            load: (self.load + right.delivery).max(self.pickup + right.load),
        }
    }

    ghost nothing_before = { no_load-before };

    ghost nothing_after = { no_load-after };

    ghost associative = { merged_load-assoc };
}
