//! A table that finds a number that comes again.
ghost use Rattle.std.specs.Prelude.{◌≡◌, ℕ, ◌<◌, Bool, false, All, IfOk, length, slice_index_or};
ghost use Rattle.vrplib_model.specs.Checks.{contains, has_repeated};

use std::alloc::{AllocError, Global};
use std::marker::Model;

/// A mark for each number below a limit, not set between calls.
#[derive(Drop)]
pub(crate) struct Marks {
    marked: Vec<bool>,
}

impl Model for Marks {
    ghost use Rattle.std.specs.Prelude.{◌≡◌, ℕ, Bool, false, length, slice_index_or};

    ghost Value = { ℕ };

    ghost view = { λ m. length m.marked.items };

    ghost invariant = { λ m. (n : ℕ) → slice_index_or m.marked.items n false ≡ false };
}

impl Marks {
    /// A table of numbers below the limit.
    pub(crate) fn new(alloc: Global, limit: usize) -> Result<Marks, AllocError>
        ensures { IfOk result (λ made. made ≡ limit) }
    {
        Ok(Marks {
            marked: vec![in alloc; false; limit]?,
        })
    }

    /// Whether a number comes again in the list.
    pub(crate) fn has_repeated(&mut self, list: &[u64]) -> bool
        requires { All (λ n. n < self.old) list.now }
        ensures answer { result ≡ has_repeated list.now }
        ensures kept { self.new ≡ self.old }
    {
        let repeated = mark(&mut self.marked, list);
        unmark(&mut self.marked, list);
        repeated
    }
}

/// Marks the numbers of a list up to one that comes again, and tells whether one does.
fn mark(marked: &mut [bool], list: &[u64]) -> bool
    requires within { All (λ n. n < length marked.old) list.now }
    requires blank { (n : ℕ) → slice_index_or marked.old n false ≡ false }
    ensures answer { result ≡ has_repeated list.now }
    ensures others { (n : ℕ) → contains n list.now ≡ false → slice_index_or marked.new n false ≡ false }
{
    for number in list {
        let place = *number as usize;
        if marked[place] {
            return true;
        }
        marked[place] = true;
    }
    false
}

/// Takes the marks of the numbers of a list away.
fn unmark(marked: &mut [bool], list: &[u64])
    requires within { All (λ n. n < length marked.old) list.now }
    requires others { (n : ℕ) → contains n list.now ≡ false → slice_index_or marked.old n false ≡ false }
    ensures { (n : ℕ) → slice_index_or marked.new n false ≡ false }
{
    for number in list {
        marked[*number as usize] = false;
    }
}
