//! Clients that exclude others.
ghost use Rattle.std.specs.Prelude.{◌≡◌, ◌++◌, ℕ, IfOk, IsTrue, List, []};
ghost use Rattle.std.specs.List.{list_all};
ghost use Rattle.routing_model.specs.Lawful.{names_place};
ghost use Rattle.routing_model.specs.Routes.{clients_of};
ghost use Rattle.genetic_model.specs.RouteChildren.{clashes, without_clashes};
ghost use Rattle.exchange_children.specs.inside.Clashing.{AreClashes, HasMarks};

use crate::groups::mark_groups;
use problem_data::{NoMemory, ProblemData, Visit};
use route_rings::mark_clients;
use std::alloc::Global;

/// A set of clients: a mark for each place, and one for each group that has one of them.
#[derive(Drop)]
pub(crate) struct Clashes {
    clients: Vec<bool>,
    groups: Vec<bool>,
}

impl Clashes {
    /// No client.
    pub(crate) fn none(alloc: Global, given: &ProblemData) -> Result<Clashes, NoMemory>
        ensures marks { IfOk result (HasMarks given.now) }
        ensures none { IfOk result (λ r. AreClashes given.now r []) }
    {
        given.validity();
        let problem = given.problem();
        Ok(Clashes {
            clients: vec![in alloc; false; problem.places.items().len()]?,
            groups: vec![in alloc; false; problem.groups.items().len()]?,
        })
    }

    /// Adds the clients of a list.
    pub(crate) fn add(&mut self, given: &ProblemData, visits: &[Visit])
        requires marks { HasMarks given.now self.old }
        requires named { IsTrue (list_all (names_place given.now) visits.now) }
        ensures marks { HasMarks given.now self.new }
        ensures added { (clients : List ℕ) → AreClashes given.now self.old clients → AreClashes given.now self.new (clients ++ clients_of visits.now) }
    {
        mark_clients(given, self.clients.as_mut_slice(), visits);
        mark_groups(given, self.groups.as_mut_slice(), visits);
    }

    /// Whether a visit is one of the clients, or one that shares a group with one of them.
    fn clash(&self, given: &ProblemData, visit: Visit) -> bool
        requires marks { HasMarks given.now self.now }
        requires named { IsTrue (names_place given.now visit) }
        ensures { (clients : List ℕ) → AreClashes given.now self.now clients → result ≡ clashes given.now clients visit }
    {
        given.validity();
        let Visit::Client(place) = visit else {
            return false;
        };
        if self.clients[place as usize] {
            return true;
        }
        match given.client(place).group {
            Some(group) => self.groups[group as usize],
            None => false,
        }
    }

    /// A list without its clients that clash with these.
    pub(crate) fn without(
        &self,
        alloc: Global,
        given: &ProblemData,
        visits: &[Visit],
    ) -> Result<Vec<Visit>, NoMemory>
        requires marks { HasMarks given.now self.now }
        requires named { IsTrue (list_all (names_place given.now) visits.now) }
        ensures { IfOk result (λ r. (clients : List ℕ) → AreClashes given.now self.now clients → r.items ≡ without_clashes given.now clients visits.now) }
    {
        let mut list = Vec::new(alloc);
        for visit in visits {
            if !self.clash(given, *visit) {
                list.push(*visit)?;
            }
        }
        Ok(list)
    }
}
