//! What a search keeps beside its lists: of each client, each vehicle, each vehicle type and each group. And routes of lists.
#![tactic(auto)]

mod figures;
mod installed;
mod moved_clients;
mod plan_tables;
mod problem_tables;
mod route_lists;
mod spots;
mod unused;

pub use installed::install;
pub use plan_tables::PlanTables;
pub use problem_tables::ProblemTables;
pub use route_lists::{joined, lists_in, routes_of};
pub use spots::Spot;
