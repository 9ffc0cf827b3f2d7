//! Problems and plans.
ghost use Rattle.std.specs.Prelude.{◌≡◌, ◌*◌, ◌<◌, length, IfOk};

use crate::lists::{
    ClientList, DepotList, GroupList, PlaceList, PlaceTable, ProfileList, RouteList, TypeList,
    VisitList,
};
use crate::memory::NoMemory;
use std::alloc::Global;
use std::marker::Model;

/// A window of time, both ends included, in the file's unit of time.
#[derive(Clone, Copy, Debug, PartialEq, Eq)]
pub struct Window {
    /// The first moment.
    pub early: u64,
    /// The last moment, no less than `early`.
    pub late: u64,
}

/// Where a place lies, in millionths of the file's unit.
#[derive(Clone, Copy, Debug, PartialEq, Eq)]
pub struct Place {
    /// The first coordinate.
    pub x: i64,
    /// The second coordinate.
    pub y: i64,
}

/// A depot, where vehicles start, end and reload.
#[derive(Clone, Copy, Debug, PartialEq, Eq)]
pub struct Depot {
    /// When it is open.
    pub window: Window,
    /// How long a departure takes.
    pub service: u64,
}

/// A client.
#[derive(Clone, Copy, Debug, PartialEq, Eq)]
pub struct Client {
    /// How much is brought to it.
    pub delivery: u64,
    /// How much is taken from it.
    pub pickup: u64,
    /// When its service may begin.
    pub window: Window,
    /// How long its service takes.
    pub service: u64,
    /// When its goods are at the depot: its trip doesn't depart earlier.
    pub release: u64,
    /// What is lost where it isn't visited. A client without a group and with prize 0 has to be visited.
    pub prize: u64,
    /// The number of its group, if it is in one.
    pub group: Option<u32>,
}

/// A vehicle type. Distances, durations and costs are whole numbers, in the file's units.
#[derive(Debug, Drop)]
pub struct VehicleType {
    /// How many vehicles there are of it.
    pub count: u32,
    /// How much one can carry.
    pub capacity: u64,
    /// The depot's place where one starts.
    pub start: u32,
    /// The depot's place where one ends.
    pub end: u32,
    /// The cost of using one.
    pub fixed: u64,
    /// The cost of a unit of distance.
    pub unit_distance: u64,
    /// The cost of a unit of duration.
    pub unit_duration: u64,
    /// When one may be on its way.
    pub shift: Window,
    /// The longest route in time; no limit is kept as 10^18.
    pub max_duration: u64,
    /// The longest route in distance; no limit is kept as 10^18.
    pub max_distance: u64,
    /// The number of its profile, from 0.
    pub profile: u32,
    /// How often one may reload.
    pub reloads: u32,
    /// The depots' places where one may reload.
    pub reload_depots: PlaceList,
}

/// A square table of legs, row by row: from the row's place to the column's. It shows no entry but by `leg`.
#[derive(Drop)]
pub struct Matrix {
    size: u32,
    entries: Vec<u32>,
}

impl Model for Matrix {
    ghost use Rattle.std.specs.Prelude.{◌≡◌, ◌*◌, length};
    ghost use Rattle.problem_data.specs.Matrix.{Table};

    ghost Value = { Table };

    ghost view = { λ m. record { size = m.size; entries = m.entries.items } };

    ghost invariant = { λ m. length m.entries.items ≡ m.size * m.size };
}

impl Matrix {
    ghost use Rattle.problem_data.specs.Matrix.{entry};

    /// The table of these entries, row by row. It takes no memory. Condition: there are `size` times `size` entries.
    pub fn new(size: u32, entries: Vec<u32>) -> Matrix
        requires { length entries.items ≡ size * size }
        ensures size { result.size ≡ size }
        ensures entries { result.entries ≡ entries.items }
    {
        Matrix { size, entries }
    }

    /// The entry of a row and a column.
    pub(crate) fn at(&self, row: u32, column: u32) -> u32
        requires row { row < self.now.size }
        requires column { column < self.now.size }
        ensures { result ≡ entry self.now row column }
    {
        self.entries[row as usize * self.size as usize + column as usize]
    }
}

/// A leg from one place to another.
#[derive(Clone, Copy, Debug, PartialEq, Eq)]
pub struct Leg {
    /// How long it is, in the file's unit of distance.
    pub distance: u32,
    /// How long it takes, in the file's unit of time.
    pub duration: u32,
}

/// The legs of a vehicle type.
#[derive(Drop)]
pub struct Profile {
    /// The distances, in the file's unit.
    pub distances: Matrix,
    /// The durations, in the file's unit of time.
    pub durations: Matrix,
}

/// A routing problem, with what PyVRP's model has (Wouda, Lan and Kool 2024). Depots are the places from 0 on, and clients follow.
#[derive(Drop)]
pub struct Problem {
    /// Where each place lies.
    pub places: PlaceTable,
    /// The depots, by place.
    pub depots: DepotList,
    /// The clients, in the order of their places.
    pub clients: ClientList,
    /// The vehicle types; vehicles are numbered from 0, type by type.
    pub types: TypeList,
    /// The profiles, by number.
    pub profiles: ProfileList,
    /// The groups, each as its clients' places.
    pub groups: GroupList,
}

/// A plan: one list of visits per vehicle, in the order of the vehicles' numbers.
#[derive(Debug, Drop)]
pub struct Solution {
    /// Each vehicle's visits, in order.
    pub routes: RouteList,
}

impl Solution {
    /// An equal solution. Refused only where memory runs out.
    pub fn copy(&self, alloc: Global) -> Result<Solution, NoMemory>
        ensures { IfOk result (λ copied. copied ≡ self.now) }
    {
        let mut routes: Vec<VisitList> = Vec::new(alloc);
        for route in self.routes.items() {
            routes.push(route.copy(alloc)?)?;
        }
        Ok(Solution {
            routes: RouteList::from_vec(routes),
        })
    }
}
