//! Views: some stops and visits of a route, or one visit alone.
ghost use Rattle.std.specs.Prelude.{◌≡◌, ◌<◌, ◌≤◌, [], ◌∷◌, None, false, IsTrue, length, slice_index_or};
ghost use Rattle.std.specs.List.{list_all};
ghost use Rattle.std.specs.Option.{ForSome};
ghost use Rattle.problem_data.specs.Places.{is_client_place, is_depot_place, vehicle_count};
ghost use Rattle.problem_data.specs.Valid.{IsValid};
ghost use Rattle.routing_model.specs.Lawful.{names_place};
ghost use Rattle.segments.specs.Totals.{IsTotal, largest_total};
ghost use Rattle.trips.specs.Conditions.{IsSoundTrips};
ghost use Rattle.trips.specs.RunSegments.{HoldsVisit, prizes_of};
ghost use Rattle.route_cache.specs.inside.Lookups.{IsAlone};
ghost use Rattle.route_cache.specs.Routes.{lent};
ghost use Rattle.route_cache.specs.Views.{IsDistanceOfView, StandsForView};

use crate::route::Route;
use problem_data::{ProblemData, Visit};
use std::default::MadeWith;
use std::marker::Model;
use trips::{RunSegment, TripSegment};

/// Some stops and visits of a route. It is a handle: what they add up to is looked up in the route that lends it, and that can't
/// change while the view lives.
#[derive(Drop)]
pub struct View<'r> {
    pub(crate) given: &'r ProblemData,
    pub(crate) lender: Option<&'r Route<'r>>,
    pub(crate) list: &'r [Visit],
    pub(crate) first: u32,
    pub(crate) end: u32,
    pub(crate) starts: bool,
    pub(crate) ends: bool,
}

/// A handle is small, so that it is cheap to hand on.
const _: () = prove!(size_of::<View<'static>>() <= 64);

impl<'r> Model for View<'r> {
    ghost use Rattle.std.specs.Option.{option_map};
    ghost use Rattle.route_cache.specs.Routes.{ViewState};
    ghost use Rattle.route_cache.specs.inside.Lookups.{IsView};

    ghost Value = { ViewState };

    ghost view = { λ a. record { problem = a.given.now; vehicle = option_map (λ route. route.now.vehicle) a.lender; list = a.list.now; first = a.first; end = a.end; starts = a.starts; ends = a.ends } };

    ghost invariant = { λ a. IsView (record { problem = a.given.now; vehicle = option_map (λ route. route.now.vehicle) a.lender; list = a.list.now; first = a.first; end = a.end; starts = a.starts; ends = a.ends }) (option_map (λ route. route.now) a.lender) };
}

impl<'r> View<'r> {
    /// The visits that it lends, in order.
    pub fn visits(&self) -> &'r [Visit]
        ensures visits { result.now ≡ lent self.now }
        ensures valid { IsValid self.now.problem }
        ensures named { IsTrue (list_all (names_place self.now.problem) self.now.list) }
        ensures in_order { self.now.first ≤ self.now.end }
        ensures in_list { self.now.end ≤ length self.now.list }
    {
        &self.list[self.first as usize..self.end as usize]
    }

    /// The vehicle whose route lends it, if one does.
    pub fn vehicle(&self) -> Option<u32>
        ensures vehicle { result ≡ self.now.vehicle }
        ensures in_range { ForSome result (λ vehicle. vehicle < vehicle_count self.now.problem) }
    {
        match self.lender {
            Some(route) => Some(route.vehicle()),
            None => None,
        }
    }

    /// The position of its first visit in the list that it is lent from.
    pub fn first(&self) -> u32
        ensures { result ≡ self.now.first }
    {
        self.first
    }

    /// The position behind its last visit.
    pub fn end(&self) -> u32
        ensures { result ≡ self.now.end }
    {
        self.end
    }

    /// Whether the start belongs to it.
    pub fn starts(&self) -> bool
        ensures { result ≡ self.now.starts }
    {
        self.starts
    }

    /// Whether the end belongs to it.
    pub fn ends(&self) -> bool
        ensures { result ≡ self.now.ends }
    {
        self.ends
    }

    /// What its stops and visits add up to, by the type of the vehicle whose route lends it.
    pub fn segment(&self) -> TripSegment
        ensures sound { IsSoundTrips result }
        ensures stands { StandsForView self.now result }
    {
        match self.lender {
            Some(route) => route.segment_of(self.first, self.end, self.starts, self.ends),
            None => self.alone().trips,
        }
    }

    /// The sum of the distances of its legs, by the same type. From 0 to 10^16.
    pub fn distance(&self) -> i64
        ensures in_range { IsTotal result }
        ensures distance { IsDistanceOfView self.now result }
    {
        match self.lender {
            Some(route) => route.distance_of(self.first, self.end, self.starts, self.ends),
            None => self.alone().distance.distance,
        }
    }

    /// The prizes of its clients, added up. At most 10^16.
    pub fn prizes(&self) -> u64
        ensures prizes { result ≡ prizes_of self.now.problem (lent self.now) }
        ensures small { result ≤ largest_total }
    {
        match self.lender {
            Some(route) => route.prizes_of(self.first, self.end),
            None => self.alone().prizes,
        }
    }

    /// The one visit of a view that no route lends.
    fn alone(&self) -> RunSegment
        requires { self.now.vehicle ≡ None }
        ensures { IsAlone self.now result }
    {
        lone(self.given, self.list, self.first)
    }
}

impl<'r> MadeWith<&'r ProblemData> for View<'r> {
    /// A view that stands for nothing in particular, for the unused places of a vector.
    fn made_with(given: &'r ProblemData) -> View<'r> {
        given.validity();
        reload_view(given, 0)
    }
}

/// A visit of a list.
fn lone(given: &ProblemData, list: &[Visit], at: u32) -> RunSegment
    requires named { IsTrue (list_all (names_place given.now) list.now) }
    requires in_list { at < length list.now }
    ensures { HoldsVisit given.now (slice_index_or list.now at (Visit.Client 0)) result }
{
    RunSegment::visit(given, list[at as usize])
}

/// A view of a client alone, which no route lends. Condition: the place is a client's. It reads no leg and takes no memory.
pub fn client_view<'d>(given: &'d ProblemData, client: u32) -> View<'d>
    requires { IsTrue (is_client_place given.now client) }
    ensures { result ≡ record { problem = given.now; vehicle = None; list = Visit.Client client ∷ []; first = 0; end = 1; starts = false; ends = false } }
{
    given.validity();
    View {
        given,
        lender: None,
        list: given.visit_of(client),
        first: 0,
        end: 1,
        starts: false,
        ends: false,
    }
}

/// A view of a reload alone, which no route lends. Condition: the place is a depot's. It reads no leg and takes no memory.
pub fn reload_view<'d>(given: &'d ProblemData, depot: u32) -> View<'d>
    requires { IsTrue (is_depot_place given.now depot) }
    ensures { result ≡ record { problem = given.now; vehicle = None; list = Visit.Reload depot ∷ []; first = 0; end = 1; starts = false; ends = false } }
{
    given.validity();
    View {
        given,
        lender: None,
        list: given.visit_of(depot),
        first: 0,
        end: 1,
        starts: false,
        ends: false,
    }
}
