//! The one call that tells a leg.
ghost use Rattle.std.specs.Prelude.{◌≡◌, ◌<◌, ◌≤◌, length};
ghost use Rattle.problem_data.specs.Limits.{largest_leg};
ghost use Rattle.problem_data.specs.Places.{place_count, leg_distance, leg_duration};
ghost use Rattle.problem_data.specs.Reads.{OneMore};

use crate::problem::Leg;
use crate::steps::{Reads, Steps};
use crate::valid_problem::ProblemData;

/// The leg from a place to a place, by the tables of a profile, in constant time. It is the only call that tells an entry of a
/// table, and it counts one read. Condition: the profile and both places are in range. A leg from a place to itself is 0.
pub fn leg(given: &ProblemData, profile: u32, from: u32, to: u32, reads: &mut Steps<Reads>) -> Leg
    requires profile { profile < length given.now.profiles }
    requires from { from < place_count given.now }
    requires to { to < place_count given.now }
    ensures distance { result.distance ≡ leg_distance given.now profile from to }
    ensures duration { result.duration ≡ leg_duration given.now profile from to }
    ensures bounded { (result.distance ≤ largest_leg) × (result.duration ≤ largest_leg) }
    ensures count { OneMore reads.old reads.new }
{
    reads.raise();
    let tables = &given.problem().profiles.items()[profile as usize];
    Leg {
        distance: tables.distances.at(from, to),
        duration: tables.durations.at(from, to),
    }
}
