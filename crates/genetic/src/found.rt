//! What a search found.
use problem_data::Solution;

/// What a search found.
#[derive(Debug, Drop)]
pub struct Found {
    /// The best feasible solution, if one was found.
    pub best: Option<Solution>,
    /// Its penalised cost, by any weights, since it exceeds no limit.
    pub cost: Option<i128>,
    /// The iterations done.
    pub iterations: u64,
}
