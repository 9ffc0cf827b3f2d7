//! Files in memory that don't fail.
ghost use Rattle.std.specs.Prelude.{◌≡◌, ◌≢◌, [], Some, OnOk, OnErr, IfOk};
ghost use Rattle.batch_run.specs.InMemory.{open_holding};
ghost use Rattle.outside_model.specs.Files.{IsLoaded, IsStored, IsTooLong, Stores};

use crate::files::{Files, LoadFault, StoreFault};
use crate::named_bytes::{NamedBytes, copied_within};
use problem_data::NoMemory;
use std::alloc::Global;
use std::marker::Model;

/// Files in memory without faults. A name that wasn't set is an empty file.
#[derive(Debug, Drop)]
pub struct PlainFiles {
    named: NamedBytes,
}

impl Model for PlainFiles {
    ghost use Rattle.std.specs.Prelude.{ℕ, List};

    ghost Value = { List (List ℕ × List ℕ) };

    ghost view = { λ files. files.named };
}

impl PlainFiles {
    /// Files that are all empty.
    pub fn new(alloc: Global) -> PlainFiles
        ensures { result ≡ [] }
    {
        PlainFiles {
            named: NamedBytes::new(alloc),
        }
    }

    /// Sets the bytes of a name. Nothing changes where there is no memory.
    pub fn set(&mut self, name: &str, bytes: &[u8]) -> Result<(), NoMemory>
        ensures stored { OnOk result (IsStored (open_holding self.old) (open_holding self.new) name.now bytes.now) }
        ensures unchanged { OnErr result (self.new ≡ self.old) }
    {
        self.named.set(name, bytes)
    }
}

impl Files for PlainFiles {
    ghost holding = { λ files. Some (open_holding files) };

    ghost faults = { λ _. [] };

    /// The bytes of a file, at most `limit` of them. It never fails.
    fn load(&mut self, name: &str, limit: u64) -> Result<Vec<u8>, LoadFault>
        ensures bytes { IfOk result (λ loaded. IsLoaded (Some (open_holding self.old)) name.now limit loaded.items) }
        ensures too_long { result ≡ Err LoadFault.TooLong → IsTooLong (Some (open_holding self.old)) name.now limit }
        ensures kept { self.new ≡ self.old }
        ensures not_failed { result ≢ Err LoadFault.Failed }
    {
        let alloc = self.named.allocator();
        match self.named.find(name) {
            None => Ok(Vec::new(alloc)),
            Some(bytes) => copied_within(alloc, bytes, limit),
        }
    }

    /// Puts these bytes into a file, in place of what it held. It never fails, and nothing changes where there is no memory.
    fn store(&mut self, name: &str, bytes: &[u8]) -> Result<(), StoreFault>
        ensures stored { OnOk result (Stores (Some (open_holding self.old)) (Some (open_holding self.new)) name.now bytes.now) }
        ensures unchanged { OnErr result (self.new ≡ self.old) }
        ensures not_failed { result ≢ Err StoreFault.Failed }
    {
        self.named.set(name, bytes)?;
        Ok(())
    }
}
