//! The trips of a list.
ghost use Rattle.std.specs.Prelude.{◌≡◌, ◌≤◌, IfOk, length, map};
ghost use Rattle.problem_data.specs.Limits.{most_visits};
ghost use Rattle.trips.specs.Spans.{spans_from, trip_visits, trips_in, visits_of};

use problem_data::{NoMemory, Visit};
use smallvec::SmallVec;
use std::alloc::Global;

/// A run of clients between reloads, as a range of positions in a list.
#[derive(Clone, Copy, Debug, Default, PartialEq, Eq)]
pub struct Trip {
    /// The position of its first client.
    pub first: u32,
    /// The position behind its last client.
    pub end: u32,
}

/// The trips of a list, in order: the runs of clients between reloads. An empty list has none. Condition: the list has no more
/// visits than a vehicle can have. Refused only where memory runs out.
pub fn trips_of(alloc: Global, visits: &[Visit]) -> Result<SmallVec<Trip, 4>, NoMemory>
    requires { length visits.now ≤ most_visits }
    ensures places { IfOk result (λ r. r.items ≡ spans_from 0 (trips_in visits.now)) }
    ensures clients { IfOk result (λ r. map (visits_of visits.now) r.items ≡ trip_visits visits.now) }
{
    let mut trips = SmallVec::new(alloc);
    if visits.is_empty() {
        return Ok(trips);
    }
    let mut first: u32 = 0;
    for (i, visit) in visits.iter().enumerate() {
        if let Visit::Reload(_) = visit {
            let end = i as u32;
            trips.push(Trip { first, end })?;
            first = end + 1;
        }
    }
    let end = visits.len() as u32;
    trips.push(Trip { first, end })?;
    Ok(trips)
}
