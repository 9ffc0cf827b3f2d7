//! An operator around another one that records what it is asked.
ghost use Rattle.std.specs.Prelude.{◌≡◌};

use move_core::{Candidate, Gain, Kind, Operator, Search, Tally, Target};
use problem_data::{NoMemory, Reads, Steps};
use std::alloc::Global;
use std::sync::Arc;
use std::sync::atomic::AtomicU64;
use std::sync::atomic::Ordering::SeqCst;

/// What the operators of a kit were asked: how often each, and all their candidates in order, mixed into one number.
#[derive(Drop)]
pub struct Record {
    asked: Vec<AtomicU64>,
    mixed: AtomicU64,
}

impl Record {
    /// Of so many operators that weren't asked yet.
    pub fn new(alloc: Global, operators: usize) -> Result<Record, NoMemory> {
        let mut asked = Vec::new(alloc);
        for _ in 0..operators {
            asked.push(AtomicU64::new(0))?;
        }
        Ok(Record {
            asked,
            mixed: AtomicU64::new(0),
        })
    }

    /// How often each operator was asked.
    pub fn counts(&self, alloc: Global) -> Result<Vec<u64>, NoMemory> {
        let mut counts = Vec::new(alloc);
        for count in self.asked.as_slice() {
            counts.push(count.load(SeqCst))?;
        }
        Ok(counts)
    }

    /// The number that all candidates were mixed into.
    pub fn mixed(&self) -> u64 {
        self.mixed.load(SeqCst)
    }

    /// Records a candidate of the operator of that number.
    fn note(&self, number: usize, candidate: Candidate) {
        if let Some(count) = self.asked.get(number) {
            count.fetch_add(1, SeqCst);
        }
        let (form, first, second) = numbers_of(candidate);
        let mut mixed = self.mixed.load(SeqCst);
        for part in [number as u64, form, first, second] {
            mixed = (mixed ^ part).wrapping_mul(0x0100_0000_01b3);
        }
        self.mixed.store(mixed, SeqCst);
    }
}

/// What tells a candidate from the others of its kind: its form, and two places, vehicles or types.
fn numbers_of(candidate: Candidate) -> (u64, u64, u64) {
    match candidate {
        Candidate::Node { client, target, .. } => match target {
            Target::After(neighbour) => (1, u64::from(client), u64::from(neighbour)),
            Target::StartOf(neighbour) => (2, u64::from(client), u64::from(neighbour)),
            Target::Empty(vehicle_type) => (3, u64::from(client), u64::from(vehicle_type)),
        },
        Candidate::Solo { client, .. } => (4, u64::from(client), 0),
        Candidate::Routes { first, second, .. } => (5, u64::from(first), u64::from(second)),
    }
}

/// Answers what its operator answers, and records what it is asked.
#[derive(Drop)]
pub struct Recording<O> {
    operator: O,
    number: usize,
    record: Arc<Record>,
}

impl<O> Recording<O> {
    /// One around the operator of that number of a kit.
    pub fn new(operator: O, number: usize, record: Arc<Record>) -> Recording<O>
        ensures { result.operator ≡ operator }
    {
        Recording {
            operator,
            number,
            record,
        }
    }
}

impl<O: Operator> Operator for Recording<O> {
    ghost kind_of = { λ r. O.kind_of r.operator };

    ghost tally_of = { λ r. O.tally_of r.operator };

    ghost fits = { λ r. O.fits r.operator };

    fn kind(&self) -> Kind {
        self.operator.kind()
    }

    fn prepare(&mut self, search: &Search<'_>, reads: &mut Steps<Reads>) -> Result<(), NoMemory> {
        self.operator.prepare(search, reads)
    }

    fn evaluate(
        &mut self,
        search: &Search<'_>,
        candidate: Candidate,
        reads: &mut Steps<Reads>,
    ) -> Option<Gain> {
        self.record.note(self.number, candidate);
        self.operator.evaluate(search, candidate, reads)
    }

    fn changed(&mut self, search: &Search<'_>, vehicle: u32, reads: &mut Steps<Reads>) {
        self.operator.changed(search, vehicle, reads);
    }

    fn applied(&mut self) {
        self.operator.applied();
    }

    fn tally(&self) -> Tally {
        self.operator.tally()
    }
}
