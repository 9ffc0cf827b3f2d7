//! The clients that the lists of a child give way to.
ghost use Rattle.std.specs.Prelude.{IfOk};
ghost use Rattle.routing_model.specs.Routes.{clients_of_vehicles};
ghost use Rattle.genetic_model.specs.RouteChildren.{kept_vehicles};
ghost use Rattle.exchange_children.specs.Exchanges.{IsExchanged, exchange_of};
ghost use Rattle.exchange_children.specs.inside.Clashing.{AreClashes, HasMarks};

use crate::clashes::Clashes;
use crate::exchanged::Exchanged;
use crate::membership::is_among;
use problem_data::{NoMemory, ProblemData};
use std::alloc::Global;

impl Exchanged<'_> {
    /// The clients of the second parent's selected vehicles.
    pub(crate) fn put_clients(self, alloc: Global, given: &ProblemData) -> Result<Clashes, NoMemory>
        requires { IsExchanged given.now self }
        ensures marks { IfOk result (HasMarks given.now) }
        ensures clients { IfOk result (λ r. AreClashes given.now r (clients_of_vehicles self.entry.other.now self.entry.from.now)) }
    {
        let mut clients = Clashes::none(alloc, given)?;
        for vehicle in self.from {
            clients.add(given, self.other[*vehicle as usize].items());
        }
        Ok(clients)
    }

    /// The clients of the first parent's vehicles that weren't selected.
    pub(crate) fn kept_clients(
        self,
        alloc: Global,
        given: &ProblemData,
    ) -> Result<Clashes, NoMemory>
        requires { IsExchanged given.now self }
        ensures marks { IfOk result (HasMarks given.now) }
        ensures clients { IfOk result (λ r. AreClashes given.now r (clients_of_vehicles self.entry.parent.now (kept_vehicles self.entry.parent.now (exchange_of self.entry)))) }
    {
        given.vehicles();
        let mut clients = Clashes::none(alloc, given)?;
        for (vehicle, visits) in self.parent.iter().enumerate() {
            if !is_among(self.into, vehicle as u32) {
                clients.add(given, visits.items());
            }
        }
        Ok(clients)
    }
}
