//! Segments: what a run of stops or clients adds up to, in a few numbers that join in constant time.
//!
//! Two neighbouring runs are joined from their numbers alone, so that a route can be cut and put together anew without walking it.
//! The segments of durations are those of Vidal and others (2013), "A hybrid genetic algorithm with adaptive diversity management
//! for a large class of vehicle routing problems with time-windows".
#![tactic(auto)]

mod distance_segment;
mod duration_segment;
mod laws;
mod load_segment;
mod segment;

pub use distance_segment::DistanceSegment;
pub use duration_segment::{Drive, DurationSegment};
pub use laws::{
    durations_are_at_least_those_of_their_parts, loads_are_at_least_deliveries_and_pickups,
};
pub use load_segment::LoadSegment;
pub use segment::Segment;
