//! A descent that goes through all candidates pass after pass and remembers none, to compare the descent over kits with.
use crate::gains::gain_of;
use move_core::{Candidate, Search};
use problem_data::{NoMemory, Reads, Steps};
use std::alloc::Global;

/// The number of passes beyond which a descent is given up.
const MOST_PASSES: u32 = 1000;

/// A pass: takes each candidate's move that lowers the cost. Says whether one did.
fn takes_some(
    alloc: Global,
    search: &mut Search<'_>,
    candidates: &[Candidate],
    reads: &mut Steps<Reads>,
) -> Result<bool, NoMemory> {
    let mut takes = false;
    for candidate in candidates {
        if let Some(gain) = gain_of(alloc, search, *candidate, reads)? {
            search.apply(gain, reads)?;
            takes = true;
        }
    }
    Ok(takes)
}

/// Goes through candidates pass after pass, takes each move that lowers the cost, and stops after a pass that takes none. Answers how
/// many passes that were; none where there were a thousand, and the last of them took a move.
pub(crate) fn plain_descent(
    alloc: Global,
    search: &mut Search<'_>,
    candidates: &[Candidate],
    reads: &mut Steps<Reads>,
) -> Result<Option<u32>, NoMemory> {
    for pass in 0..MOST_PASSES {
        if !takes_some(alloc, search, candidates, reads)? {
            return Ok(Some(pass + 1));
        }
    }
    Ok(None)
}
