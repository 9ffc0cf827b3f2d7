//! Tests of routes and views, on the problem of two trips.
#![tactic(auto)]

#[cfg(test)]
mod marks;
#[cfg(test)]
mod views;
