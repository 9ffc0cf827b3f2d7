//! The three best places of a list for a client.
ghost use Rattle.std.specs.Prelude.{◌≡◌, ℕ, ℤ, ◌+◌, ◌*◌, ◌<◌, ◌≤◌, ◌<ℤ◌, length};
ghost use Rattle.problem_data.specs.Places.{place_count};
ghost use Rattle.problem_data.specs.Reads.{RoseAtMost};
ghost use Rattle.star_places.specs.Growths.{growth_of};
ghost use Rattle.star_places.specs.Places.{AreThree, IsBestApart, far, nowhere};

use crate::insertion::growth;
use crate::spot::{NOWHERE, Spot};
use problem_data::{Reads, Steps};
use route_cache::Route;

/// The three best places of a list for a client, the best first: those with the least growth, and of those the first. Where there are
/// fewer places, the others are nowhere.
#[derive(Clone, Copy)]
pub struct ThreePlaces {
    first: Spot,
    second: Spot,
    third: Spot,
}

impl ThreePlaces {
    /// Those of no places.
    pub fn none() -> ThreePlaces
        ensures { (f : ℕ → ℤ) → AreThree f 0 result }
    {
        ThreePlaces {
            first: NOWHERE,
            second: NOWHERE,
            third: NOWHERE,
        }
    }

    /// Those with a place behind all others.
    fn with(self, spot: Spot) -> ThreePlaces
        requires place { spot.place < nowhere }
        requires near { spot.growth <ℤ far }
        ensures { (f : ℕ → ℤ) → spot.growth ≡ f spot.place → AreThree f spot.place self → AreThree f (spot.place + 1) result }
    {
        if spot.growth < self.first.growth {
            return ThreePlaces {
                first: spot,
                second: self.first,
                third: self.second,
            };
        }
        if spot.growth < self.second.growth {
            return ThreePlaces {
                first: self.first,
                second: spot,
                third: self.second,
            };
        }
        if spot.growth < self.third.growth {
            return ThreePlaces {
                first: self.first,
                second: self.second,
                third: spot,
            };
        }
        self
    }

    /// The best place that isn't beside the visit at a position.
    pub(crate) fn not_beside(self, position: u32) -> Spot
        requires { position < nowhere }
        ensures { (f : ℕ → ℤ) (n : ℕ) → n ≤ nowhere → AreThree f n self → IsBestApart f n position result }
    {
        if !self.first.is_beside(position) {
            return self.first;
        }
        if !self.second.is_beside(position) {
            return self.second;
        }
        self.third
    }
}

/// The three best places of a route for a client. Two legs a place are read.
pub fn three_places(route: &Route<'_>, client: u32, reads: &mut Steps<Reads>) -> ThreePlaces
    requires { client < place_count route.now.problem }
    ensures three { AreThree (growth_of route.now client) (length route.now.visits + 1) result }
    ensures reads { RoseAtMost (2 * (length route.now.visits + 1)) reads.old reads.new }
{
    let end = route.visits().len() as u32 + 1;
    let mut three = ThreePlaces::none();
    for place in 0..end {
        let growth = growth(route, client, place, reads);
        three = three.with(Spot { growth, place });
    }
    three
}
