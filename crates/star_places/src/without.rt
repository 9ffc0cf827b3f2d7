//! The best place for a client in a list without one of its visits.
ghost use Rattle.std.specs.Prelude.{◌≡◌, ℕ, ℤ, ◌+◌, ◌<◌, ◌<ℤ◌, length};
ghost use Rattle.problem_data.specs.Places.{place_count};
ghost use Rattle.problem_data.specs.Reads.{RoseAtMost};
ghost use Rattle.star_places.specs.Growths.{IsSmall, growth_of, growth_without, without};
ghost use Rattle.star_places.specs.Places.{AreThree, IsBestApart, IsLeastSpot, far, nowhere};

use crate::insertion::{growth_instead, growths_are_small};
use crate::places::ThreePlaces;
use crate::spot::Spot;
use problem_data::{Reads, Steps};
use route_cache::Route;

/// The better of the best place that isn't beside the visit at a position, and the place of that visit, both in the list without it.
fn better_of(kept: Spot, position: u32, instead: i64) -> Spot
    requires { instead <ℤ far }
    ensures { (f : ℕ → ℤ) (n : ℕ) → position < n → n < nowhere → IsBestApart f (n + 1) position kept → IsLeastSpot (without position instead f) n result }
{
    let own = Spot {
        growth: instead,
        place: position,
    };
    if kept.place < position {
        if kept.growth <= instead { kept } else { own }
    } else if kept.growth < instead {
        Spot {
            growth: kept.growth,
            place: kept.place.saturating_sub(1),
        }
    } else {
        own
    }
}

/// The best place for a client in a route without the visit at a position, by the three best places of the whole route. Two legs are
/// read.
pub fn best_without(
    route: &Route<'_>,
    client: u32,
    three: ThreePlaces,
    position: u32,
    reads: &mut Steps<Reads>,
) -> Spot
    requires client { client < place_count route.now.problem }
    requires position { position < length route.now.visits }
    requires three { AreThree (growth_of route.now client) (length route.now.visits + 1) three }
    ensures least { IsLeastSpot (growth_without route.now position client) (length route.now.visits) result }
    ensures small { IsSmall result.growth }
    ensures reads { RoseAtMost 2 reads.old reads.new }
{
    route.visits();
    growths_are_small(route);
    let instead = growth_instead(route, client, position, reads);
    better_of(three.not_beside(position), position, instead)
}
