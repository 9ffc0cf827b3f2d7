//! Trips: what a run of a vehicle's stops adds up to, over reloads and releases.
//!
//! A release isn't known at the departure that it holds back while the trip's clients aren't all known. So it is kept beside the
//! segment of the trip's stops, and applied where the trip is closed, however the list was cut (after the multi-trip segments of
//! PyVRP; Wouda, Lan and Kool 2024).
#![tactic(auto)]

mod joint;
mod laws;
mod middle;
mod piece;
mod run_segment;
mod trip;
mod trip_segment;
mod whole_route;

pub use joint::{Joint, tidy_joint};
pub use laws::{
    joints_name_what_is_not_tidy, routes_are_bounded_by_stops, routes_tell_their_drives,
    runs_leave_and_reach_their_visits, segments_of_runs_are_in_range,
    trips_take_at_least_what_their_parts_take,
};
pub use middle::Middle;
pub use piece::Piece;
pub use run_segment::RunSegment;
pub use trip::{Trip, trips_of};
pub use trip_segment::{RouteSegment, TripSegment};
pub use whole_route::{WholeRoute, whole_of};
