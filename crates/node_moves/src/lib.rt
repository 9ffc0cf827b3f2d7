//! Moves of clients from route to route: the exchanges of pieces and of tails; and moves of reloads.
#![tactic(auto)]

mod exchange;
mod remove_depot;
mod swap_tails;

pub use exchange::Exchange;
pub use remove_depot::RemoveDepot;
pub use swap_tails::SwapTails;
