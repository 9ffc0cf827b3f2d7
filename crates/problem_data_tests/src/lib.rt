//! Tests of problems and plans: each public call once, on the problem of three clients.
#![tactic(auto)]

#[cfg(test)]
mod look_ups;
#[cfg(test)]
mod plans;
