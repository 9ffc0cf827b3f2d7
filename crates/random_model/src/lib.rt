//! Random plans: draws from the generator, and the random solution that its words give. Definitions, which contracts cite.
#![tactic(auto)]

mod laws;

pub use laws::{random_solutions_are_lawful, random_solutions_have_clients_alone};
