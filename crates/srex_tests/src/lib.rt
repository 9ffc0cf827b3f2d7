//! Tests of random plans and of the exchange of routes, on instances that are read from texts.
#![tactic(auto)]

#[cfg(test)]
mod directions;
#[cfg(test)]
mod draws;
#[cfg(test)]
mod exchanges;
#[cfg(test)]
mod instances;
