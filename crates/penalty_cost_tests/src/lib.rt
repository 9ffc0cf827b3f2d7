//! A test of proposals, on an instance that is read from a text.
#![tactic(auto)]

#[cfg(test)]
mod full_sides;
#[cfg(test)]
mod instance;
