//! What plans cost by any weights, by one drive of each, and how fit they are: the fitness of each plan of a list, by its rank of cost and
//! its rank of diversity (Vidal and others 2012).
#![tactic(auto)]

mod fitness;
mod ranking;
mod weighing;

pub use fitness::{fitnesses, worst};
pub use ranking::MOST_ITEMS;
pub use weighing::{PlanCost, plan_cost};
