//! What all segments have in common.
ghost use Rattle.std.specs.Prelude.{◌≡◌, ℤ, pos};
ghost use Rattle.segments.specs.Totals.{IsJoint};

/// What a run of stops adds up to. Runs that follow one another are merged from what they add up to alone.
pub trait Segment: Copy {
    // its numbers are in range, and agree with one another
    ghost is_sound: { Self → Type 0 };
    // no number that adds up is above 10^16
    ghost is_within: { Self → Type 0 };
    // the segment of no stops
    ghost nothing: { Self };
    // the segment of both, one after the other, with the leg between them
    ghost merged: { Self → Self → ℤ → Self };

    /// The segment of no stops.
    fn empty() -> Self
        ensures value { result ≡ nothing }
        ensures sound { is_sound result };

    /// The segment of both, `right` behind `self`. The `joint` is the leg between them, and 0 where one of them has no stops.
    ///
    /// Conditions: both are sound, the joint is from 0 to 4·10^9, and no number of the result that adds up exceeds 10^16.
    fn merge(self, right: Self, joint: i64) -> Self
        requires left { is_sound self }
        requires right { is_sound right }
        requires joint { IsJoint joint }
        requires within { is_within (merged self right joint) }
        ensures value { result ≡ merged self right joint }
        ensures sound { is_sound result };

    // to merge with nothing changes nothing
    ghost nothing_before: { (x : Self) → is_sound x → merged nothing x (pos 0) ≡ x };

    ghost nothing_after: { (x : Self) → is_sound x → merged x nothing (pos 0) ≡ x };

    // it doesn't matter which two of three are merged first
    ghost associative: { (x y z : Self) (first second : ℤ) → is_sound x → is_sound y → is_sound z → IsJoint first → IsJoint second →
        merged (merged x y first) z second ≡ merged x (merged y z second) first };
}
