//! A counter that its own crate alone raises.
ghost use Rattle.std.specs.Prelude.{◌≡◌};
ghost use Rattle.problem_data.specs.Reads.{OneMore};

use std::marker::{Model, PhantomData};
use std::thread::Threads;

/// What a counter of legs counts: reads of a leg.
pub struct Reads;

/// A counter of steps of the kind `L`, which contracts see as a number. It can be neither copied nor cloned, and its last value is
/// 2^64 - 1.
#[derive(Drop)]
pub struct Steps<L> {
    count: u64,
    kind: PhantomData<L>,
}

impl<L> Model for Steps<L> {
    ghost use Rattle.std.specs.Prelude.{ℕ};

    ghost Value = { ℕ };

    ghost view = { λ steps. steps.count };
}

impl Steps<Reads> {
    /// A counter at 0. It asks for the runtime, so a call that isn't handed one can't make a counter of its own.
    pub fn new(rt: &impl Threads) -> Steps<Reads>
        ensures { result ≡ 0 }
    {
        let _ = rt;
        Steps {
            count: 0,
            kind: PhantomData,
        }
    }

    /// Counts one read; a count at its last value stays there.
    pub(crate) fn raise(&mut self)
        ensures { OneMore self.old self.new }
    {
        self.count = self.count.saturating_add(1);
    }
}
