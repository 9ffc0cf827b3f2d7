//! Tests of the reader, against outside values.
#![tactic(auto)]

#[cfg(test)]
mod faulty_texts;
#[cfg(test)]
mod legs;
#[cfg(test)]
mod numbers;
#[cfg(test)]
mod whole_texts;
