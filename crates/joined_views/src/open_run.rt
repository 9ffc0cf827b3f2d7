//! What the beginning of a side's new list adds up to.
ghost use Rattle.std.specs.Prelude.{◌<◌};
ghost use Rattle.problem_data.specs.Places.{place_count};
ghost use Rattle.problem_data.specs.Reads.{RoseAtMost};
ghost use Rattle.problem_data.specs.Valid.{IsValidType};
ghost use Rattle.joined_views.specs.inside.Folding.{FollowsOpen, Goes};

use problem_data::{ProblemData, Reads, Steps, VehicleType};
use trips::RunSegment;

/// What the beginning of a side's new list adds up to, and where it is left.
#[derive(Clone, Copy)]
pub struct OpenRun {
    /// From the start on.
    pub so_far: RunSegment,
    /// The place of the last stop.
    pub last: u32,
}

impl OpenRun {
    /// With a run behind it, which is reached at the place `first` and left at the place `last`. The leg there is read.
    pub(crate) fn follow(
        self,
        next: RunSegment,
        first: u32,
        last: u32,
        given: &ProblemData,
        vehicle_type: &VehicleType,
        reads: &mut Steps<Reads>,
    ) -> OpenRun
        requires vehicle_type { IsValidType given.now vehicle_type.now }
        requires first { first < place_count given.now }
        requires last { last < place_count given.now }
        requires fit { FollowsOpen given.now vehicle_type.now self next first last }
        ensures goes { Goes given.now vehicle_type.now self next first last result }
        ensures reads { RoseAtMost 1 reads.old reads.new }
    {
        OpenRun {
            so_far: self
                .so_far
                .join(self.last, next, first, given, vehicle_type, reads),
            last,
        }
    }
}
