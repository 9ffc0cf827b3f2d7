//! Valid problems, with look-ups in constant time.
ghost use Rattle.std.specs.Prelude.{◌≡◌, ◌<◌, ◌≤◌, [], ◌∷◌, IfOk, IsTrue, length, if◌then◌else◌};
ghost use Rattle.problem_data.specs.Limits.{most_vehicles};
ghost use Rattle.problem_data.specs.Places.{client_at, depot_at, depot_count, is_client_place, place_count, type_at, type_of, vehicle_count};
ghost use Rattle.problem_data.specs.Valid.{IsValid, IsValidClient, IsValidDepot, IsValidType};

use crate::memory::NoMemory;
use crate::problem::{Client, Depot, Problem, VehicleType};
use crate::tables::{types_table, visit_alone, visits_table};
use crate::visit::Visit;
use std::alloc::Global;
use std::marker::Model;
use std::ops::Range;

/// A valid problem, ready to be worked on. Contracts see the problem. Beside it stand tables that are made once, so each look-up
/// takes constant time.
#[derive(Drop)]
pub struct ProblemData {
    problem: Problem,
    types: Vec<u32>,
    visits: Vec<Visit>,
}

impl Model for ProblemData {
    ghost use Rattle.problem_data.specs.declared.problem.Problem.{Problem};
    ghost use Rattle.problem_data.specs.Tables.{HasTables};

    ghost Value = { Problem };

    ghost view = { λ a. a.problem };

    ghost invariant = { λ a. HasTables a.problem a.types.items a.visits.items };
}

impl ProblemData {
    /// The problem with its tables, in time linear in its places, types and vehicles. Refused only where memory runs out.
    pub fn new(alloc: Global, problem: Problem) -> Result<ProblemData, NoMemory>
        requires { IsValid problem }
        ensures { IfOk result (λ r. r ≡ problem) }
    {
        let types = types_table(alloc, problem.types.items())?;
        let depots = problem.depots.items().len();
        let places = depots + problem.clients.items().len();
        let visits = visits_table(alloc, depots as u32, places as u32)?;
        Ok(ProblemData {
            problem,
            types,
            visits,
        })
    }

    /// The problem.
    pub fn problem(&self) -> &Problem
        ensures same { result.now ≡ self.now }
        ensures valid { IsValid self.now }
    {
        &self.problem
    }

    /// Says that the problem is valid, and does nothing.
    pub fn validity(&self)
        ensures { IsValid self.now }
    {
        self.problem();
    }

    /// How many vehicles there are, of all types together.
    pub fn vehicles(&self) -> u32
        ensures count { result ≡ vehicle_count self.now }
        ensures limit { result ≤ most_vehicles }
    {
        self.types.len() as u32
    }

    /// The number of a vehicle's type. Condition: the vehicle is in range.
    pub fn type_of(&self, vehicle: u32) -> u32
        requires { vehicle < vehicle_count self.now }
        ensures number { result ≡ type_of self.now vehicle }
        ensures in_range { result < length self.now.types }
    {
        self.types[vehicle as usize]
    }

    /// The type of a vehicle. Condition: the vehicle is in range.
    pub fn vehicle_type(&self, vehicle: u32) -> &VehicleType
        requires { vehicle < vehicle_count self.now }
        ensures vehicle_type { result.now ≡ type_at self.now (type_of self.now vehicle) }
        ensures valid { IsValidType self.now result.now }
    {
        let number = self.type_of(vehicle);
        &self.problem.types.items()[number as usize]
    }

    /// The depot at a place. Condition: it is a depot's place.
    pub fn depot(&self, place: u32) -> &Depot
        requires { place < depot_count self.now }
        ensures depot { result.now ≡ depot_at self.now place }
        ensures valid { IsValidDepot result.now }
    {
        &self.problem.depots.items()[place as usize]
    }

    /// The places of all clients, in order.
    pub fn client_places(&self) -> Range<u32>
        ensures start { result.start ≡ depot_count self.now }
        ensures end { result.end ≡ place_count self.now }
    {
        let depots = self.problem.depots.items().len();
        let places = depots + self.problem.clients.items().len();
        depots as u32..places as u32
    }

    /// The client at a place. Condition: it is a client's place.
    pub fn client(&self, place: u32) -> &Client
        requires { IsTrue (is_client_place self.now place) }
        ensures client { result.now ≡ client_at self.now place }
        ensures valid { IsValidClient result.now }
    {
        let depots = self.problem.depots.items().len();
        &self.problem.clients.items()[place as usize - depots]
    }

    /// The one visit that a place can have: its client's, or a reload at its depot. Condition: the place is in range.
    pub fn visit_of(&self, place: u32) -> &[Visit]
        requires { place < place_count self.now }
        ensures { result.now ≡ (if is_client_place self.now place then Visit.Client place else Visit.Reload place) ∷ [] }
    {
        visit_alone(self.visits.as_slice(), place as usize)
    }
}
