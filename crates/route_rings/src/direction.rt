//! The direction in which a vehicle's clients lie.
ghost use Rattle.std.specs.Prelude.{◌≡◌, ◌≤◌, IsTrue, int_lt, length, pos};
ghost use Rattle.std.specs.List.{list_all};
ghost use Rattle.std.specs.Ordering.{is_lt};
ghost use Rattle.problem_data.specs.Limits.{most_visits};
ghost use Rattle.routing_model.specs.Lawful.{names_place};
ghost use Rattle.genetic_model.specs.RouteOrder.{cross_product, half_plane, route_vector, turns_before};
ghost use Rattle.route_rings.specs.inside.Directions.{IsShort, comes_before_by, offset_of};

use genetic_model::Vector;
use problem_data::{ProblemData, Visit};
use std::cmp::Ordering;

/// A used vehicle, and the sum over its clients of where they lie as seen from the first place.
#[derive(Clone, Copy)]
pub(crate) struct Direction {
    pub(crate) vehicle: u32,
    pub(crate) vector: Vector,
}

/// Where a visit's client lies as seen from the first place; nowhere for a reload.
fn offset_of(given: &ProblemData, visit: Visit) -> Vector
    requires named { IsTrue (names_place given.now visit) }
    ensures offset { result ≡ offset_of given.now visit }
    ensures short { IsShort 1 result }
{
    let Visit::Client(place) = visit else {
        return Vector { x: 0, y: 0 };
    };
    given.validity();
    let places = given.problem().places.items();
    let from = places[0];
    let to = places[place as usize];
    Vector {
        x: to.x - from.x,
        y: to.y - from.y,
    }
}

/// The sum over the clients of a list of where they lie as seen from the first place. Condition: the list names existing places and has
/// no more visits than a vehicle can have.
pub(crate) fn route_vector(given: &ProblemData, visits: &[Visit]) -> Vector
    requires named { IsTrue (list_all (names_place given.now) visits.now) }
    requires few { length visits.now ≤ most_visits }
    ensures vector { result ≡ route_vector given.now visits.now }
    ensures short { IsShort most_visits result }
{
    let mut sum = Vector { x: 0, y: 0 };
    for visit in visits {
        let offset = offset_of(given, *visit);
        sum.x += offset.x;
        sum.y += offset.y;
    }
    sum
}

/// 0 for no direction, 1 for those from the first axis on through the upper half plane, 2 for the rest.
fn half_plane(v: Vector) -> u32
    ensures { result ≡ half_plane v }
{
    if v.x == 0 && v.y == 0 {
        0
    } else if v.y > 0 || (v.y == 0 && v.x > 0) {
        1
    } else {
        2
    }
}

/// Whether v lies to the left of u.
fn lies_left(u: Vector, v: Vector) -> bool
    ensures { result ≡ int_lt (pos 0) (cross_product u v) }
{
    i128::from(u.y) * i128::from(v.x) < i128::from(u.x) * i128::from(v.y)
}

/// Whether u comes before v, going round from the first axis.
fn turns_before(u: Vector, v: Vector) -> bool
    ensures { result ≡ turns_before u v }
{
    let here = half_plane(u);
    let there = half_plane(v);
    here < there || (here == there && lies_left(u, v))
}

/// The order of two vehicles by their directions, ties by number.
pub(crate) fn compared(u: &Direction, v: &Direction) -> Ordering
    ensures { is_lt result ≡ comes_before_by u.now v.now }
{
    if turns_before(u.vector, v.vector) {
        Ordering::Less
    } else if turns_before(v.vector, u.vector) {
        Ordering::Greater
    } else {
        u.vehicle.cmp(&v.vehicle)
    }
}
