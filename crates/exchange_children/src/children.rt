//! The two children of an exchange.
ghost use Rattle.std.specs.Prelude.{◌≡◌, ◌<◌, ℕ, IfOk, List, length};
ghost use Rattle.genetic_model.specs.RouteChildren.{child, child_list, first_child, giver_of, second_child};
ghost use Rattle.exchange_children.specs.Exchanges.{IsExchanged, exchange_of};
ghost use Rattle.exchange_children.specs.inside.Clashing.{AreClashes, HasMarks};

use crate::clashes::Clashes;
use crate::exchanged::{Exchanged, giver_of};
use crate::fitting::fitted;
use crate::tidying::tidied;
use problem_data::{NoMemory, ProblemData, Visit, VisitList};
use std::alloc::Global;

impl Exchanged<'_> {
    /// A vehicle's list in a child, not yet tidied: one that was kept has lost the clients that clash with `kept_loses`, and one that was
    /// put in those that clash with `put_loses`.
    fn child_list(
        self,
        alloc: Global,
        given: &ProblemData,
        vehicle: u32,
        kept_loses: &Clashes,
        put_loses: &Clashes,
    ) -> Result<Vec<Visit>, NoMemory>
        requires exchanged { IsExchanged given.now self }
        requires vehicle { vehicle < length self.parent.now }
        requires kept_marks { HasMarks given.now kept_loses.now }
        requires put_marks { HasMarks given.now put_loses.now }
        ensures { IfOk result (λ r. (kept put : List ℕ) → AreClashes given.now kept_loses.now kept → AreClashes given.now put_loses.now put → r.items ≡ child_list given.now self.entry.parent.now self.entry.other.now kept put vehicle (giver_of (exchange_of self.entry) vehicle)) }
    {
        let Some(giver) = giver_of(self.into, self.from, vehicle) else {
            return kept_loses.without(alloc, given, self.parent[vehicle as usize].items());
        };
        let visits = self.other[giver as usize].items();
        let list = fitted(alloc, given.vehicle_type(vehicle), visits)?;
        put_loses.without(alloc, given, list.as_slice())
    }

    /// The lists of a child, tidied.
    fn child(
        self,
        alloc: Global,
        given: &ProblemData,
        kept_loses: &Clashes,
        put_loses: &Clashes,
    ) -> Result<Vec<VisitList>, NoMemory>
        requires exchanged { IsExchanged given.now self }
        requires kept_marks { HasMarks given.now kept_loses.now }
        requires put_marks { HasMarks given.now put_loses.now }
        ensures { IfOk result (λ r. (kept put : List ℕ) → AreClashes given.now kept_loses.now kept → AreClashes given.now put_loses.now put → r.items ≡ child given.now self.entry.parent.now self.entry.other.now (exchange_of self.entry) kept put) }
    {
        given.vehicles();
        let mut lists = Vec::new(alloc);
        for vehicle in 0..self.parent.len() {
            let list = self.child_list(alloc, given, vehicle as u32, kept_loses, put_loses)?;
            let tidy = tidied(alloc, list.as_slice())?;
            lists.push(VisitList::from_vec(tidy))?;
        }
        Ok(lists)
    }

    /// The child in which the kept lists give way: they lose the clients that are put in, and those that share a group with one of them.
    /// A list that is put in loses the reloads that the vehicle that gets it may not have. All lists are tidied.
    ///
    /// Condition: the parents' lists are ones that vehicles can have, and the exchange is one between them. Refused only where memory runs
    /// out.
    pub fn first_child(self, alloc: Global, given: &ProblemData) -> Result<Vec<VisitList>, NoMemory>
        requires { IsExchanged given.now self }
        ensures { IfOk result (λ r. r.items ≡ first_child given.now self.entry.parent.now self.entry.other.now (exchange_of self.entry)) }
    {
        let put_clients = self.put_clients(alloc, given)?;
        let nothing = Clashes::none(alloc, given)?;
        self.child(alloc, given, &put_clients, &nothing)
    }

    /// The child in which the lists that are put in give way: they lose the clients that the kept lists visit, and those that share a
    /// group with one of them. Otherwise as the first child.
    ///
    /// Condition: the parents' lists are ones that vehicles can have, and the exchange is one between them. Refused only where memory runs
    /// out.
    pub fn second_child(
        self,
        alloc: Global,
        given: &ProblemData,
    ) -> Result<Vec<VisitList>, NoMemory>
        requires { IsExchanged given.now self }
        ensures { IfOk result (λ r. r.items ≡ second_child given.now self.entry.parent.now self.entry.other.now (exchange_of self.entry)) }
    {
        let nothing = Clashes::none(alloc, given)?;
        let kept_clients = self.kept_clients(alloc, given)?;
        self.child(alloc, given, &nothing, &kept_clients)
    }
}
