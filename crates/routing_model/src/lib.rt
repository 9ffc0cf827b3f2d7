//! What a plan means: its stops, its clock, its loads, its cost, and when it is lawful and feasible.
#![tactic(auto)]

mod laws;
mod weights;

pub use laws::{
    best_drive_is_best, best_plan_is_feasible, feasible_plan_costs_the_same,
    first_start_has_least_warp, lawful_plans_are_tested, tidying_tidies,
    unused_vehicle_costs_nothing,
};
pub use weights::{Assessment, Weights};
