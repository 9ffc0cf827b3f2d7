//! Sinks for bytes.
ghost use Rattle.std.specs.Prelude.{◌≡◌, ◌+◌, ◌-◌, ◌^◌, ◌<◌, ◌≤◌, ℕ, List, Option, OnOk, OnErr};
ghost use Rattle.outside_model.specs.Sinks.{Appended, AppendedPart, Rose};

/// A write failed.
#[derive(Clone, Copy, Debug, PartialEq, Eq)]
pub struct Failed;

/// Takes bytes, one piece after the other.
pub trait Sink {
    /// What was written so far, where the sink tells it.
    ghost written: { Self → Option (List ℕ) };

    /// How many writes failed so far; the count stands still at 2^64 - 1.
    ghost faults: { Self → ℕ };

    /// Appends all the bytes, or a prefix of them where a write fails.
    fn put(&mut self, bytes: &[u8]) -> Result<(), Failed>
        ensures whole { OnOk result (Appended (written self.old) (written self.new) bytes.now) }
        ensures part { OnErr result (AppendedPart (written self.old) (written self.new) bytes.now) }
        ensures cause { OnErr result (Rose (faults self.old) (faults self.new)) }
        ensures later { faults self.old ≤ faults self.new };
}

/// Raises a count of faults, which stands still at 2^64 - 1.
pub(super) fn raise(faults: &mut u64)
    ensures rose { Rose faults.old faults.new }
    ensures later { faults.old ≤ faults.new }
    ensures exact { faults.old < 2 ^ 64 - 1 → faults.new ≡ faults.old + 1 }
{
    *faults = faults.saturating_add(1);
}
