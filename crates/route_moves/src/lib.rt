//! Moves of two vehicles: their lists change places, or two of their clients do.
#![tactic(auto)]

mod star_lists;
mod star_screen;
mod swap_routes;
mod swap_star;
mod whole_lists;

pub use swap_routes::SwapRoutes;
pub use swap_star::SwapStar;
