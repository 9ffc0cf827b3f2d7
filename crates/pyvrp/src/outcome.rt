//! What came of an instance.
use problem_data::Text;
use vrplib_read::Refusal;

/// What a search found.
#[derive(Debug, Drop)]
pub struct Answer {
    /// The cost of the best feasible solution, if one was found.
    pub cost: Option<i128>,
    /// The iterations done.
    pub iterations: u64,
    /// The solution text of that solution, or nothing.
    pub text: Text,
}

/// What came of an instance's bytes. The kit is a `Kit`.
#[derive(Drop)]
pub enum Outcome<K> {
    /// They were read and searched by the kit, which is handed back.
    Solved(Answer, K),
    /// The text is refused.
    Refused(Refusal),
    /// There was not enough memory.
    NoMemory,
}

/// What came of an instance.
#[derive(Debug, Drop)]
pub enum Instance {
    /// It could not be loaded.
    Unreadable,
    /// It has more bytes than the limit.
    Oversized,
    /// Its text is refused.
    Refused(Refusal),
    /// It was read and searched.
    Solved(Answer),
}
