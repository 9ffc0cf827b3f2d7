//! Routing problems and plans: plain data that contracts see field by field, lists as lists.
#![tactic(auto)]

mod legs;
mod limits;
mod lists;
mod memory;
mod problem;
mod steps;
mod tables;
mod valid_problem;
mod visit;

pub use legs::leg;
pub use limits::{
    LARGEST, LARGEST_LEG, LARGEST_UNIT_COST, MOST_GROUPS, MOST_PLACES, MOST_PROFILES, MOST_RELOADS,
    MOST_TYPES, MOST_VEHICLES, MOST_VISITS, UNLIMITED, limits_are_defined,
};
pub use lists::{
    ClientList, DepotList, GroupList, PlaceList, PlaceTable, ProfileList, RouteList, Text,
    TypeList, VisitList,
};
pub use memory::NoMemory;
pub use problem::{
    Client, Depot, Leg, Matrix, Place, Problem, Profile, Solution, VehicleType, Window,
};
pub use steps::{Reads, Steps};
pub use valid_problem::ProblemData;
pub use visit::{Visit, is_used};
