//! Tests of numbers and random words, against outside values.
#![tactic(auto)]

#[cfg(test)]
mod decimal;
#[cfg(test)]
mod rounding;
#[cfg(test)]
mod square_root;
#[cfg(test)]
mod xor128;
