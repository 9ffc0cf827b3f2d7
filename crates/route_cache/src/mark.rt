//! Marks: what a route tells of each of its positions.
ghost use Rattle.std.specs.Prelude.{◌≡◌, ◌+◌, ◌<◌, ◌≤◌, [], ◌∷◌, IsTrue, List, length, pos, slice_index_or};
ghost use Rattle.problem_data.specs.declared.problem.Problem.{Problem};
ghost use Rattle.problem_data.specs.Limits.{largest};
ghost use Rattle.problem_data.specs.Valid.{IsValid, IsValidType};
ghost use Rattle.routing_model.specs.Cost.{distance};
ghost use Rattle.routing_model.specs.Lawful.{names_place};
ghost use Rattle.routing_model.specs.Listed.{IsListed};
ghost use Rattle.trips.specs.RunSegments.{HoldsRun, run_before};
ghost use Rattle.route_cache.specs.inside.Shapes.{reload_of};
ghost use Rattle.route_cache.specs.Marks.{IsMark, deliveries_of, leg_over, leg_to, pickups_of, place_along};

use problem_data::{ProblemData, VehicleType, Visit};
use trips::RunSegment;

/// What a route tells of a position: 0 is the start, i the i-th visit, and the last one the end.
#[derive(Clone, Copy, Debug, PartialEq, Eq)]
pub struct Mark {
    /// The distance from the start up to it.
    pub distance: i64,
    /// The deliveries up to it, added up.
    pub delivery: i64,
    /// The pickups up to it, added up.
    pub pickup: i64,
    /// The prizes up to it, added up.
    pub prize: i64,
    /// Its place.
    pub place: u32,
    /// How many reloads there are up to it.
    pub reloads: u32,
    /// The distance of the leg to it, 0 for the start.
    pub leg: u32,
    /// The distance from the position before it to the one behind it, 0 for the start and the end.
    pub over: u32,
}

/// 48 bytes a position.
const _: () = prove!(size_of::<Mark>() == 48);

/// What a visit adds to the sums of a mark.
#[derive(Clone, Copy)]
struct Amounts {
    delivery: u64,
    pickup: u64,
    reloads: u32,
}

impl Mark {
    /// The start.
    pub(crate) fn start(vehicle_type: &VehicleType) -> Mark
        ensures { (p : Problem) (visits : List Visit) → IsMark p vehicle_type.now visits 0 result }
    {
        Mark {
            distance: 0,
            delivery: 0,
            pickup: 0,
            prize: 0,
            place: vehicle_type.start,
            reloads: 0,
            leg: 0,
            over: 0,
        }
    }

    /// The visit behind this mark, where what the start with all visits up to it adds up to is known, and the legs.
    #[inline(always)]
    pub(crate) fn at_visit(
        self,
        given: &ProblemData,
        vehicle_type: &VehicleType,
        visits: &[Visit],
        k: usize,
        so_far: RunSegment,
        leg: u32,
        over: u32,
    ) -> Mark
        requires valid { IsValid given.now }
        requires vehicle_type { IsValidType given.now vehicle_type.now }
        requires listed { IsListed given.now visits.now }
        requires in_list { k < length visits.now }
        requires mark { IsMark given.now vehicle_type.now visits.now k self }
        requires holds { HoldsRun given.now vehicle_type.now so_far (run_before visits.now (k + 1)) }
        requires leg { leg ≡ leg_to given.now vehicle_type.now visits.now (k + 1) }
        requires over { over ≡ leg_over given.now vehicle_type.now visits.now (k + 1) }
        ensures { IsMark given.now vehicle_type.now visits.now (k + 1) result }
    {
        let visit = visits[k];
        let amounts = amounts_of(given, visit);
        Mark {
            distance: so_far.distance.distance,
            delivery: self.delivery + amounts.delivery as i64,
            pickup: self.pickup + amounts.pickup as i64,
            prize: so_far.prizes as i64,
            place: visit.place(),
            reloads: self.reloads + amounts.reloads,
            leg,
            over,
        }
    }

    /// The end behind this mark, where the distance of the whole list is known, and the last leg.
    pub(crate) fn at_end(
        self,
        given: &ProblemData,
        vehicle_type: &VehicleType,
        visits: &[Visit],
        driven: i64,
        leg: u32,
    ) -> Mark
        requires valid { IsValid given.now }
        requires vehicle_type { IsValidType given.now vehicle_type.now }
        requires listed { IsListed given.now visits.now }
        requires mark { IsMark given.now vehicle_type.now visits.now (length visits.now) self }
        requires driven { driven ≡ pos (distance given.now vehicle_type.now visits.now) }
        requires leg { leg ≡ leg_to given.now vehicle_type.now visits.now (length visits.now + 1) }
        ensures { IsMark given.now vehicle_type.now visits.now (length visits.now + 1) result }
    {
        Mark {
            distance: driven,
            place: vehicle_type.end,
            leg,
            over: 0,
            ..self
        }
    }
}

/// What a visit adds to the sums of a mark.
fn amounts_of(given: &ProblemData, visit: Visit) -> Amounts
    requires { IsTrue (names_place given.now visit) }
    ensures delivery { result.delivery ≡ deliveries_of given.now (visit ∷ []) }
    ensures pickup { result.pickup ≡ pickups_of given.now (visit ∷ []) }
    ensures reloads { result.reloads ≡ reload_of visit }
    ensures small_delivery { result.delivery ≤ largest }
    ensures small_pickup { result.pickup ≤ largest }
{
    match visit {
        Visit::Client(place) => {
            let client = given.client(place);
            Amounts {
                delivery: client.delivery,
                pickup: client.pickup,
                reloads: 0,
            }
        }
        Visit::Reload(_) => Amounts {
            delivery: 0,
            pickup: 0,
            reloads: 1,
        },
    }
}

/// The place at a position of a list.
pub(crate) fn place_along(vehicle_type: &VehicleType, visits: &[Visit], i: usize) -> u32
    ensures { result ≡ place_along vehicle_type.now visits.now i }
{
    if i == 0 {
        return vehicle_type.start;
    }
    match visits.get(i - 1) {
        Some(visit) => visit.place(),
        None => vehicle_type.end,
    }
}
