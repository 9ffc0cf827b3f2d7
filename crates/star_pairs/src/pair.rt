//! Pairs of a client of one list and a client of another one that change lists.
ghost use Rattle.std.specs.Prelude.{◌≡◌, ◌≢◌, ◌+◌, ◌<◌, IsFalse, IsTrue, length};
ghost use Rattle.problem_data.specs.Places.{place_count};
ghost use Rattle.problem_data.specs.Reads.{RoseAtMost};
ghost use Rattle.star_places.specs.Growths.{growth_of, place_of};
ghost use Rattle.star_places.specs.Places.{AreThree};
ghost use Rattle.star_pairs.specs.inside.Pairs.{IsPairAt, IsShort, IsTurn, Leads};

use problem_data::{Reads, Steps};
use route_cache::Route;
use star_places::{ThreePlaces, best_without, gone, place_at};

/// What goes out of a list and what comes into it: the visit at a position, from 0, goes, and a client comes to a place of what is left.
/// So much farther the vehicle drives.
#[derive(Clone, Copy)]
pub struct Turn {
    pub goes: u32,
    pub place: u32,
    pub change: i64,
}

/// A client u of the first list and a client v of the second one that change lists, each to its best place in the other list without the
/// other client, and how much farther the two vehicles drive together.
#[derive(Clone, Copy)]
pub struct Pair {
    pub u: u32,
    pub v: u32,
    pub first: Turn,
    pub second: Turn,
    pub change: i64,
}

impl Pair {
    /// Whether it comes before another one: its change is less, or the same, and then the client of the first list, and where that is
    /// the same the client of the second.
    pub(crate) fn is_before(self, other: Pair) -> bool
        ensures before { IsTrue result → Leads self other }
        ensures not_before { IsFalse result → Leads other self }
    {
        if self.change != other.change {
            return self.change < other.change;
        }
        if self.u != other.u {
            return self.u < other.u;
        }
        self.v < other.v
    }
}

/// The client at a position of a route, from 0.
pub(crate) fn client_at(route: &Route<'_>, position: u32) -> u32
    requires { position < length route.now.visits }
    ensures client { result ≡ place_of route.now (position + 1) }
    ensures there { result < place_count route.now.problem }
{
    route.visits();
    place_at(route, position + 1)
}

/// The visit at a position goes, and a client comes to the best place of what is left, by the three best places of the whole list. Two
/// legs are read.
fn turn_at(
    route: &Route<'_>,
    goes: u32,
    client: u32,
    three: ThreePlaces,
    reads: &mut Steps<Reads>,
) -> Turn
    requires goes { goes < length route.now.visits }
    requires client { client < place_count route.now.problem }
    requires three { AreThree (growth_of route.now client) (length route.now.visits + 1) three }
    ensures turn { IsTurn route.now goes client result }
    ensures small { IsShort result.change }
    ensures reads { RoseAtMost 2 reads.old reads.new }
{
    let spot = best_without(route, client, three, goes, reads);
    Turn {
        goes,
        place: spot.place,
        change: spot.growth - gone(route, goes),
    }
}

/// The pair of the clients at two positions, by the three best places of each in the other list. Four legs are read.
pub(crate) fn pair_at(
    first: &Route<'_>,
    second: &Route<'_>,
    u_at: u32,
    v_at: u32,
    for_u: ThreePlaces,
    for_v: ThreePlaces,
    reads: &mut Steps<Reads>,
) -> Pair
    requires problem { second.now.problem ≡ first.now.problem }
    requires u_at { u_at < length first.now.visits }
    requires v_at { v_at < length second.now.visits }
    requires for_u { AreThree (growth_of second.now (place_of first.now (u_at + 1))) (length second.now.visits + 1) for_u }
    requires for_v { AreThree (growth_of first.now (place_of second.now (v_at + 1))) (length first.now.visits + 1) for_v }
    ensures pair { IsPairAt first.now second.now u_at v_at result }
    ensures reads { RoseAtMost 4 reads.old reads.new }
{
    let u = client_at(first, u_at);
    let v = client_at(second, v_at);
    let one = turn_at(first, u_at, v, for_v, reads);
    let two = turn_at(second, v_at, u, for_u, reads);
    Pair {
        u,
        v,
        first: one,
        second: two,
        change: one.change + two.change,
    }
}
