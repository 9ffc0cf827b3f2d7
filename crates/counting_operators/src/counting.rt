//! An operator around another one that counts.
ghost use Rattle.std.specs.Prelude.{◌≡◌};

use move_core::{Candidate, Gain, Kind, Operator, Search, Tally};
use problem_data::{NoMemory, Reads, Steps};
use std::sync::Arc;
use std::sync::atomic::AtomicU64;
use std::sync::atomic::Ordering::SeqCst;

/// How often the operators that share it were asked for a gain, and how many of them were dropped.
#[derive(Drop)]
pub struct Counts {
    pub evaluations: AtomicU64,
    pub drops: AtomicU64,
}

impl Counts {
    /// Of operators that weren't asked yet.
    pub fn new() -> Counts {
        Counts {
            evaluations: AtomicU64::new(0),
            drops: AtomicU64::new(0),
        }
    }
}

/// Answers what its operator answers, and counts.
pub struct Counting<O> {
    operator: O,
    counts: Arc<Counts>,
}

impl<O> Counting<O> {
    /// One around an operator.
    pub fn new(operator: O, counts: Arc<Counts>) -> Counting<O>
        ensures { result.operator ≡ operator }
    {
        Counting { operator, counts }
    }
}

impl<O: Drop> Drop for Counting<O> {
    fn drop(self) {
        let Counting {
            operator: _operator,
            counts,
        } = self;
        counts.drops.fetch_add(1, SeqCst);
    }
}

impl<O: Operator> Operator for Counting<O> {
    ghost kind_of = { λ c. O.kind_of c.operator };

    ghost tally_of = { λ c. O.tally_of c.operator };

    ghost fits = { λ c. O.fits c.operator };

    fn kind(&self) -> Kind {
        self.operator.kind()
    }

    fn prepare(&mut self, search: &Search<'_>, reads: &mut Steps<Reads>) -> Result<(), NoMemory> {
        self.operator.prepare(search, reads)
    }

    fn evaluate(
        &mut self,
        search: &Search<'_>,
        candidate: Candidate,
        reads: &mut Steps<Reads>,
    ) -> Option<Gain> {
        self.counts.evaluations.fetch_add(1, SeqCst);
        self.operator.evaluate(search, candidate, reads)
    }

    fn changed(&mut self, search: &Search<'_>, vehicle: u32, reads: &mut Steps<Reads>) {
        self.operator.changed(search, vehicle, reads);
    }

    fn applied(&mut self) {
        self.operator.applied();
    }

    fn tally(&self) -> Tally {
        self.operator.tally()
    }
}
