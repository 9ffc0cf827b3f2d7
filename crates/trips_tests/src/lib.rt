//! Tests of trips: each public call once, on the problem of two trips.
#![tactic(auto)]

#[cfg(test)]
mod closed_trips;
#[cfg(test)]
mod lists;
#[cfg(test)]
mod whole_lists;
