//! Segments of a duration.
use crate::segment::Segment;

/// What a drive takes.
#[derive(Clone, Copy, Debug, PartialEq, Eq)]
pub struct Drive {
    /// From the start to the end, with the time warp.
    pub duration: i64,
    /// The time warp: by how much the drive goes back in time.
    pub warp: i64,
}

/// What a drive of a run of stops takes, from every start.
#[derive(Clone, Copy, Debug, Default, PartialEq, Eq)]
pub struct DurationSegment {
    /// The duration from a start between `earliest` and `latest`: no start takes less. From 0 to 10^16.
    pub duration: i64,
    /// The time warp from such a start: no start takes less. From 0 to 10^16.
    pub warp: i64,
    /// Before this start a drive waits longer. From 0 to `latest`.
    pub earliest: i64,
    /// Behind this start a drive takes more time warp. From `earliest` to 10^18.
    pub latest: i64,
}

impl DurationSegment {
    ghost use Rattle.std.specs.Prelude.{◌≡◌, ◌+◌, ◌≤◌, pos, ◌+ℤ◌, ◌-ℤ◌, ◌≤ℤ◌};
    ghost use Rattle.std.specs.Int.{int_max, int_min};
    ghost use Rattle.segment_model.specs.Span.{latest_moment, shift_of};
    ghost use Rattle.segments.specs.Totals.{IsJoint, largest_total, latest_release};
    ghost use Rattle.segments.specs.inside.Moments.{IsNear, IsShift};
    ghost use Rattle.segments.specs.Duration.{span_of, IsDriveOf, IsLeastDurationOf, IsLeastWarpOf, IsSoundDuration, IsWithinDuration, Releases, StandsForStop, at_start_of, released_from};

    /// The segment of one stop, which is served for `service` from `early` to `late`.
    ///
    /// Conditions: `early <= late`, `late + service <= 10^18`, and the service is at most 10^16.
    pub fn stop(early: u64, late: u64, service: u64) -> DurationSegment
        requires in_order { early ≤ late }
        requires in_time { late + service ≤ latest_moment }
        requires within { service ≤ largest_total }
        ensures value { result ≡ record { duration = pos service; warp = pos 0; earliest = pos early; latest = pos late } }
        ensures sound { IsSoundDuration result }
        ensures stands { StandsForStop early late service result }
    {
        DurationSegment {
            duration: service as i64,
            warp: 0,
            earliest: early as i64,
            latest: late as i64,
        }
    }

    /// The drive from a start. Conditions: the segment is sound, the start is from 0 to 10^18.
    pub fn at_start(self, start: i64) -> Drive
        requires sound { IsSoundDuration self }
        requires from_0 { pos 0 ≤ℤ start }
        requires in_time { start ≤ℤ pos latest_moment }
        ensures value { result ≡ at_start_of self start }
        ensures drives { IsDriveOf self start result }
    {
        let wait = (self.earliest - start).max(0);
        let warp = (start - self.latest).max(0);
        Drive {
            duration: self.duration + wait,
            warp: self.warp + warp,
        }
    }

    /// The segment whose first stop isn't left before a release.
    ///
    /// Conditions: the segment is sound, the release is from 0 to 10^12, and the warp of the result is at most 10^16.
    pub fn released(self, release: i64) -> DurationSegment
        requires sound { IsSoundDuration self }
        requires from_0 { pos 0 ≤ℤ release }
        requires in_time { release ≤ℤ pos latest_release }
        requires within { IsWithinDuration (released_from self release) }
        ensures value { result ≡ released_from self release }
        ensures sound { IsSoundDuration result }
        ensures releases { Releases self release result }
    {
        let missed = (release - self.latest).max(0);
        DurationSegment {
            duration: self.duration,
            warp: self.warp + missed,
            earliest: self.earliest.max(release),
            latest: self.latest.max(release),
        }
    }

    /// The least time warp of all starts.
    pub fn least_warp(self) -> i64
        requires { IsSoundDuration self }
        ensures value { result ≡ self.warp }
        ensures least { IsLeastWarpOf self result }
    {
        self.warp
    }

    /// The least duration of the starts with the least time warp.
    pub fn least_duration(self) -> i64
        requires { IsSoundDuration self }
        ensures value { result ≡ self.duration }
        ensures least { IsLeastDurationOf self result }
    {
        self.duration
    }

    /// From the start of this segment to the start of the next one, where this one is started in time.
    fn shift(self, joint: i64) -> i64
        requires sound { IsSoundDuration self }
        requires joint { IsJoint joint }
        ensures value { result ≡ shift_of (span_of self) joint }
        ensures bounded { IsShift result }
    {
        let net = self.duration - self.warp;
        net + joint
    }

    /// How long the latest start still waits for the next segment.
    fn wait_for(self, right: Self, shift: i64) -> i64
        requires left { IsSoundDuration self }
        requires right { IsSoundDuration right }
        requires shift { IsShift shift }
        ensures value { result ≡ int_max ((right.earliest -ℤ shift) -ℤ self.latest) (pos 0) }
        ensures bounded { IsNear result }
    {
        (right.earliest - shift - self.latest).max(0)
    }

    /// How far the earliest start is too late for the next segment.
    fn warp_to(self, right: Self, shift: i64) -> i64
        requires left { IsSoundDuration self }
        requires right { IsSoundDuration right }
        requires shift { IsShift shift }
        ensures value { result ≡ int_max ((self.earliest +ℤ shift) -ℤ right.latest) (pos 0) }
        ensures bounded { IsNear result }
    {
        (self.earliest + shift - right.latest).max(0)
    }

    /// The later one of both earliest starts.
    fn earliest_with(self, right: Self, shift: i64) -> i64
        requires left { IsSoundDuration self }
        requires right { IsSoundDuration right }
        requires shift { IsShift shift }
        ensures value { result ≡ int_max (right.earliest -ℤ shift) self.earliest }
        ensures bounded { IsNear result }
    {
        (right.earliest - shift).max(self.earliest)
    }

    /// The earlier one of both latest starts.
    fn latest_with(self, right: Self, shift: i64) -> i64
        requires left { IsSoundDuration self }
        requires right { IsSoundDuration right }
        requires shift { IsShift shift }
        ensures value { result ≡ int_min (right.latest -ℤ shift) self.latest }
        ensures bounded { IsNear result }
    {
        (right.latest - shift).min(self.latest)
    }
}

impl Segment for DurationSegment {
    ghost use Rattle.std.specs.Prelude.{◌≡◌};
    ghost use Rattle.segments.specs.Totals.{IsJoint};
    ghost use Rattle.segments.specs.Duration.{IsSoundDuration, IsWithinDuration, Joins, StandsForNothing, merged_duration, no_duration};
    ghost use Rattle.segments.specs.Laws.{no_duration-before, no_duration-after, merged_duration-assoc};

    ghost is_sound = { IsSoundDuration };

    ghost is_within = { IsWithinDuration };

    ghost nothing = { no_duration };

    ghost merged = { merged_duration };

    /// The segment of no stops: it takes nothing, and may be started at any time up to 10^18.
    fn empty() -> Self
        ensures value { result ≡ no_duration }
        ensures sound { IsSoundDuration result }
        ensures stands { StandsForNothing result }
    {
        DurationSegment {
            duration: 0,
            warp: 0,
            earliest: 0,
            latest: 1_000_000_000_000_000_000,
        }
    }

    /// The segment of both, `right` behind `self`, with a leg of duration `joint` between them.
    fn merge(self, right: Self, joint: i64) -> Self
        requires left { IsSoundDuration self }
        requires right { IsSoundDuration right }
        requires joint { IsJoint joint }
        requires within { IsWithinDuration (merged_duration self right joint) }
        ensures value { result ≡ merged_duration self right joint }
        ensures sound { IsSoundDuration result }
        ensures joins { Joins self right joint result }
    {
        let shift = self.shift(joint);
        let wait = self.wait_for(right, shift);
        let warp = self.warp_to(right, shift);
        DurationSegment {
            duration: self.duration + right.duration + joint + wait,
            warp: self.warp + right.warp + warp,
            earliest: self.earliest_with(right, shift) - wait,
            latest: self.latest_with(right, shift) + warp,
        }
    }

    ghost nothing_before = { no_duration-before };

    ghost nothing_after = { no_duration-after };

    ghost associative = { merged_duration-assoc };
}
