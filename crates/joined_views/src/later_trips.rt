//! The excess loads of the trips behind each reload of some visits.
ghost use Rattle.std.specs.Prelude.{◌≡◌, ℕ, ◌+◌, ◌*◌, ◌<◌, ◌≤◌, ℤ, pos, ◌≤ℤ◌, All, IsTrue, List, ◌∷◌, length};
ghost use Rattle.problem_data.specs.declared.visit.Visit.{Visit as VisitOf};
ghost use Rattle.problem_data.specs.Limits.{largest, most_visits};
ghost use Rattle.routing_model.specs.Lawful.{names_place};
ghost use Rattle.joined_views.specs.inside.Recounts.{AreLater, later_loads};

use problem_data::{ProblemData, Visit};
use segments::{LoadSegment, Segment};

/// What some visits load and exceed.
#[derive(Clone, Copy)]
pub struct LaterTrips {
    /// The clients before the first reload.
    pub trip: LoadSegment,
    /// What the trips behind each reload exceed the capacity by, added up.
    pub excess: i64,
}

impl LaterTrips {
    /// With a visit before them.
    fn before(self, given: &ProblemData, visit: Visit, capacity: u64) -> LaterTrips
        requires capacity { capacity ≤ largest }
        requires named { IsTrue (names_place given.now visit) }
        requires later { (count : ℕ) × (count ≤ most_visits) × (visits : List VisitOf) × AreLater given.now capacity count visits self }
        ensures { (count : ℕ) (visits : List VisitOf) → AreLater given.now capacity count visits self → AreLater given.now capacity (count + 1) (visit ∷ visits) result }
    {
        match visit {
            Visit::Client(place) => {
                let client = given.client(place);
                let load = LoadSegment::client(client.delivery, client.pickup);
                LaterTrips {
                    trip: load.merge(self.trip, 0),
                    excess: self.excess,
                }
            }
            Visit::Reload(_) => LaterTrips {
                trip: LoadSegment::empty(),
                excess: self.excess + (self.trip.load - capacity as i64).max(0),
            },
        }
    }
}

/// What the trips behind each reload exceed a capacity by, added up.
pub(crate) fn later_excess(given: &ProblemData, visits: &[Visit], capacity: u64) -> i64
    requires capacity { capacity ≤ largest }
    requires named { All (λ visit. IsTrue (names_place given.now visit)) visits.now }
    requires few { length visits.now ≤ most_visits }
    ensures excess { result ≡ pos (later_loads given.now capacity visits.now) }
    ensures short { result ≤ℤ pos (most_visits * largest) }
{
    let mut later = LaterTrips {
        trip: LoadSegment::empty(),
        excess: 0,
    };
    for k in 0..visits.len() {
        let at = visits.len() - 1 - k;
        later = later.before(given, visits[at], capacity);
    }
    later.excess
}
