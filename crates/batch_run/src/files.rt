//! Named files.
ghost use Rattle.std.specs.Prelude.{◌≡◌, [], ◌∷◌, ◌++◌, List, Option, IfOk, OnOk, OnErr};
ghost use Rattle.outside_model.specs.Holding.{Holding};
ghost use Rattle.outside_model.specs.Files.{IsLoaded, IsTooLong, KeepsOthers, Stores};
ghost use Rattle.batch_run.specs.Faults.{fault, faults_of_load, faults_of_store};

use crate::named_bytes::copied;
use problem_data::{NoMemory, Text};

/// Why a file was not loaded.
#[derive(Clone, Copy, Debug, PartialEq, Eq)]
pub enum LoadFault {
    /// It could not be read; the files' list of faults has an entry of it.
    Failed,
    /// It has more bytes than the limit.
    TooLong,
    /// There was no memory for its bytes.
    NoMemory,
}

/// Why a file was not stored.
#[derive(Clone, Copy, Debug, PartialEq, Eq)]
pub enum StoreFault {
    /// It could not be written; the files' list of faults has an entry of it.
    Failed,
    /// There was no memory for it.
    NoMemory,
}

impl From<NoMemory> for LoadFault {
    ghost use Rattle.batch_run.specs.declared.files.LoadFault.TheVariants.{NoMemory};

    ghost from_gives = { λ _ fault. fault ≡ NoMemory };

    fn from(_: NoMemory) -> LoadFault {
        LoadFault::NoMemory
    }
}

impl From<NoMemory> for StoreFault {
    ghost use Rattle.batch_run.specs.declared.files.StoreFault.TheVariants.{NoMemory};

    ghost from_gives = { λ _ fault. fault ≡ NoMemory };

    fn from(_: NoMemory) -> StoreFault {
        StoreFault::NoMemory
    }
}

/// A load or a store that failed.
#[derive(Debug, Drop)]
pub struct FileFault {
    /// Whether it was a store.
    pub store: bool,
    /// The name of the file.
    pub name: Text,
}

/// Named files, with the list of their faults.
pub trait Files {
    ghost use Rattle.batch_run.specs.declared.files.FileFault.{FileFault};

    /// What the names hold, where the files tell it.
    ghost holding: { Self → Option Holding };

    /// The loads and stores that failed so far, in order.
    ghost faults: { Self → List FileFault };

    /// The bytes of a file, at most `limit` of them.
    fn load(&mut self, name: &str, limit: u64) -> Result<Vec<u8>, LoadFault>
        ensures bytes { IfOk result (λ loaded. IsLoaded (holding self.old) name.now limit loaded.items) }
        ensures too_long { result ≡ Err LoadFault.TooLong → IsTooLong (holding self.old) name.now limit }
        ensures kept { holding self.new ≡ holding self.old }
        ensures faults { faults self.new ≡ faults self.old ++ faults_of_load name.now result };

    /// Puts these bytes into a file, in place of what it held. After a fault the file may hold anything.
    fn store(&mut self, name: &str, bytes: &[u8]) -> Result<(), StoreFault>
        ensures stored { OnOk result (Stores (holding self.old) (holding self.new) name.now bytes.now) }
        ensures others { KeepsOthers (holding self.old) (holding self.new) name.now }
        ensures faults { faults self.new ≡ faults self.old ++ faults_of_store name.now result };
}

/// Adds a fault to a list of faults. Nothing changes where there is no memory.
pub(super) fn note_fault(
    faults: &mut Vec<FileFault>,
    store: bool,
    name: &str,
) -> Result<(), NoMemory>
    ensures noted { OnOk result (faults.new.items ≡ faults.old.items ++ fault store name.now ∷ []) }
    ensures unchanged { OnErr result (faults.new.items ≡ faults.old.items) }
{
    let name = copied(*faults.allocator(), name.as_bytes())?;
    faults.push(FileFault { store, name })?;
    Ok(())
}
