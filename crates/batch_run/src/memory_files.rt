//! Files in memory that fail by a list.
ghost use Rattle.std.specs.Prelude.{◌≡◌, ◌⊎◌, ◌++◌, true, drop, [], Some, OnOk, OnErr, IfOk};
ghost use Rattle.std.specs.Option.{option_copied};
ghost use Rattle.outside_model.specs.Holding.{held_at};
ghost use Rattle.batch_run.specs.InMemory.{LoadFails, holding_of, is_next_failing};
ghost use Rattle.outside_model.specs.Files.{IsLoaded, IsStored, IsTooLong, KeepsOthers, Stores};
ghost use Rattle.batch_run.specs.Faults.{faults_of_load, faults_of_store};

use crate::files::{FileFault, Files, LoadFault, StoreFault, note_fault};
use crate::named_bytes::{NamedBytes, copied_within};
use problem_data::NoMemory;
use std::alloc::Global;
use std::marker::Model;

/// Files in memory. A name that wasn't set is absent. Its loads and stores are counted together, and the k-th of them fails where
/// the k-th item of a list says so.
#[derive(Debug, Drop)]
pub struct MemoryFiles {
    named: NamedBytes,
    faults: Vec<FileFault>,
    failing: Vec<bool>,
    calls: usize,
}

impl Model for MemoryFiles {
    ghost use Rattle.std.specs.Prelude.{drop};
    ghost use Rattle.batch_run.specs.InMemory.{FilesInMemory};

    ghost Value = { FilesInMemory };

    ghost view = { λ files. record { entries = files.named; faults = files.faults.items; failing = drop files.calls files.failing.items } };
}

/// Whether the next call is to fail; counts the call. Calls past the list's end aren't.
fn takes_failure(failing: &[bool], calls: &mut usize) -> bool
    ensures fails { result ≡ is_next_failing (drop calls.old failing.now) }
    ensures counted { drop calls.new failing.now ≡ drop 1 (drop calls.old failing.now) }
{
    if *calls >= failing.len() {
        return false;
    }
    let fails = failing[*calls];
    *calls += 1;
    fails
}

impl MemoryFiles {
    /// Files that hold nothing. The k-th load or store fails where the k-th item is true; calls past the list's end don't fail for
    /// this reason.
    pub fn new(alloc: Global, failing: Vec<bool>) -> MemoryFiles
        ensures { result ≡ record { entries = []; faults = []; failing = failing.items } }
    {
        MemoryFiles {
            named: NamedBytes::new(alloc),
            faults: Vec::new(alloc),
            failing,
            calls: 0,
        }
    }

    /// The bytes that a name holds; none where it is absent.
    pub fn held(&self, name: &str) -> Option<&[u8]>
        ensures { option_copied result ≡ held_at (holding_of self.now) name.now }
    {
        self.named.find(name)
    }

    /// The loads and stores that failed so far, in order.
    pub fn faults(&self) -> &[FileFault]
        ensures { result.now ≡ self.now.faults }
    {
        self.faults.as_slice()
    }

    /// Sets the bytes of a name. It isn't counted as a call. Nothing changes where there is no memory.
    pub fn set(&mut self, name: &str, bytes: &[u8]) -> Result<(), NoMemory>
        ensures stored { OnOk result (IsStored (holding_of self.old) (holding_of self.new) name.now bytes.now) }
        ensures faults { self.new.faults ≡ self.old.faults }
        ensures failing { self.new.failing ≡ self.old.failing }
        ensures unchanged { OnErr result (self.new ≡ self.old) }
    {
        self.named.set(name, bytes)
    }
}

impl Files for MemoryFiles {
    ghost holding = { λ files. Some (holding_of files) };

    ghost faults = { λ files. files.faults };

    /// The bytes of a file, at most `limit` of them. It fails where the list says so or the name is absent.
    fn load(&mut self, name: &str, limit: u64) -> Result<Vec<u8>, LoadFault>
        ensures bytes { IfOk result (λ loaded. IsLoaded (Some (holding_of self.old)) name.now limit loaded.items) }
        ensures too_long { result ≡ Err LoadFault.TooLong → IsTooLong (Some (holding_of self.old)) name.now limit }
        ensures kept { self.new.entries ≡ self.old.entries }
        ensures faults { self.new.faults ≡ self.old.faults ++ faults_of_load name.now result }
        ensures failed { result ≡ Err LoadFault.Failed → LoadFails self.old name.now }
        ensures told { is_next_failing self.old.failing ≡ true → (result ≡ Err LoadFault.Failed) ⊎ (result ≡ Err LoadFault.NoMemory) }
        ensures counted { self.new.failing ≡ drop 1 self.old.failing }
    {
        if takes_failure(self.failing.as_slice(), &mut self.calls) {
            note_fault(&mut self.faults, false, name)?;
            return Err(LoadFault::Failed);
        }
        let Some(bytes) = self.named.find(name) else {
            note_fault(&mut self.faults, false, name)?;
            return Err(LoadFault::Failed);
        };
        copied_within(self.named.allocator(), bytes, limit)
    }

    /// Puts these bytes into a file, in place of what it held. It fails where the list says so, and then nothing is stored.
    fn store(&mut self, name: &str, bytes: &[u8]) -> Result<(), StoreFault>
        ensures stored { OnOk result (Stores (Some (holding_of self.old)) (Some (holding_of self.new)) name.now bytes.now) }
        ensures others { KeepsOthers (Some (holding_of self.old)) (Some (holding_of self.new)) name.now }
        ensures faults { self.new.faults ≡ self.old.faults ++ faults_of_store name.now result }
        ensures kept { OnErr result (self.new.entries ≡ self.old.entries) }
        ensures failed { result ≡ Err StoreFault.Failed → is_next_failing self.old.failing ≡ true }
        ensures told { is_next_failing self.old.failing ≡ true → (result ≡ Err StoreFault.Failed) ⊎ (result ≡ Err StoreFault.NoMemory) }
        ensures counted { self.new.failing ≡ drop 1 self.old.failing }
    {
        if takes_failure(self.failing.as_slice(), &mut self.calls) {
            note_fault(&mut self.faults, true, name)?;
            return Err(StoreFault::Failed);
        }
        self.named.set(name, bytes)?;
        Ok(())
    }
}
