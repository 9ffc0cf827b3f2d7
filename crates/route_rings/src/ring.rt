//! A plan's used vehicles in an order, going round.
ghost use Rattle.std.specs.Prelude.{◌≡◌, ◌<◌, ◌^◌, length};
ghost use Rattle.problem_data.specs.Places.{place_count};
ghost use Rattle.routing_model.specs.Routes.{clients_of_vehicles};
ghost use Rattle.genetic_model.specs.RouteSelection.{around};
ghost use Rattle.route_rings.specs.Marks.{AreMarks};
ghost use Rattle.route_rings.specs.Rings.{IsRing};

use crate::marks::mark_clients;
use crate::turning::next;
use problem_data::{ProblemData, VisitList};

/// A plan's lists, and an order of used vehicles.
#[derive(Clone, Copy)]
pub struct Ring<'s> {
    pub routes: &'s [VisitList],
    pub order: &'s [u32],
}

impl Ring<'_> {
    /// How many vehicles the order has.
    pub(crate) fn size(self) -> u32
        requires { length self.order.now < 2 ^ 31 }
        ensures { result ≡ length self.entry.order.now }
    {
        self.order.len() as u32
    }

    /// Marks the clients of so many vehicles from a place of the order on, going round, and no others. Condition: there is a mark for
    /// each place.
    pub(crate) fn select(self, given: &ProblemData, marks: &mut [bool], start: u32, count: u32)
        requires ring { IsRing given.now self }
        requires start { start < length self.order.now }
        requires places { length marks.old ≡ place_count given.now }
        ensures length { length marks.new ≡ length marks.old }
        ensures marks { AreMarks marks.new (clients_of_vehicles self.entry.routes.now (around self.entry.order.now start count)) }
    {
        marks.fill(false);
        let size = self.size();
        let mut at = start;
        for _step in 0..count {
            let vehicle = self.order[at as usize];
            mark_clients(given, marks, self.routes[vehicle as usize].items());
            at = next(at, size);
        }
    }
}
