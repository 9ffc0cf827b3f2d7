//! Routes that keep what their beginnings and endings add up to, and views that they lend.
//!
//! A view stands for some stops and visits of a route, so that routes can be cut and put together anew in constant time. While a
//! view lives, its route can't change.
#![tactic(auto)]

mod backward;
mod forward;
mod growing;
mod kept;
mod laws;
mod mark;
mod piece_table;
mod route;
mod view;
mod view_validity;

pub use laws::lists_of_lawful_plans_are_listed;
pub use mark::Mark;
pub use route::Route;
pub use view::{View, client_view, reload_view};
