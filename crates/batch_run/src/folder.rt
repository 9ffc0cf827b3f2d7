//! The files of the real folder.
ghost use Rattle.std.specs.Prelude.{◌≡◌, [], None};

use crate::files::{FileFault, Files, LoadFault, StoreFault, note_fault};
use std::alloc::Global;
use std::io::{ErrorKind, Read};
use std::marker::Model;
use std::{fs, io, rt};

/// The files that a system holds, by their paths. It doesn't tell what they hold.
#[derive(Drop)]
pub struct Folder<S> {
    system: S,
    faults: Vec<FileFault>,
}

impl<S> Model for Folder<S> {
    ghost use Rattle.std.specs.Prelude.{List};
    ghost use Rattle.batch_run.specs.declared.files.FileFault.{FileFault};

    ghost Value = { List FileFault };

    ghost view = { λ folder. folder.faults.items };
}

/// Reads a file until its end, and at most one byte more than `limit`.
fn read_within<S: rt::Files>(
    alloc: Global,
    system: &S,
    name: &str,
    limit: u64,
) -> io::Result<Vec<u8>> {
    let mut bytes = Vec::new(alloc);
    let file = fs::open(system, name)?;
    file.take(limit.saturating_add(1)).read_to_end(&mut bytes)?;
    Ok(bytes)
}

impl<S> Folder<S> {
    /// The files of this system.
    pub fn new(alloc: Global, system: S) -> Folder<S>
        ensures { result ≡ [] }
    {
        Folder {
            system,
            faults: Vec::new(alloc),
        }
    }

    /// The loads and stores that failed so far, in order.
    pub fn faults(&self) -> &[FileFault]
        ensures { result.now ≡ self.now }
    {
        self.faults.as_slice()
    }
}

impl<S: rt::Files> Files for Folder<S> {
    ghost holding = { λ _. None };

    ghost faults = { λ folder. folder };

    fn load(&mut self, name: &str, limit: u64) -> Result<Vec<u8>, LoadFault> {
        match read_within(*self.faults.allocator(), &self.system, name, limit) {
            Ok(bytes) => {
                if bytes.len() as u64 > limit {
                    return Err(LoadFault::TooLong);
                }
                Ok(bytes)
            }
            Err(error) => {
                if error.kind() == ErrorKind::OutOfMemory {
                    return Err(LoadFault::NoMemory);
                }
                note_fault(&mut self.faults, false, name)?;
                Err(LoadFault::Failed)
            }
        }
    }

    fn store(&mut self, name: &str, bytes: &[u8]) -> Result<(), StoreFault> {
        match fs::write(&self.system, name, bytes) {
            Ok(()) => Ok(()),
            Err(error) => {
                if error.kind() == ErrorKind::OutOfMemory {
                    return Err(StoreFault::NoMemory);
                }
                note_fault(&mut self.faults, true, name)?;
                Err(StoreFault::Failed)
            }
        }
    }
}
