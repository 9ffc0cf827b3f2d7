//! Names with their bytes, in memory.
ghost use Rattle.std.specs.Prelude.{◌≡◌, ◌≢◌, ℕ, ◌<◌, ◌≤◌, true, false, List, [], length, OnOk, OnErr, IfOk, unwrap_or};
ghost use Rattle.std.specs.List.{position};
ghost use Rattle.std.specs.Option.{option_copied};
ghost use Rattle.std.specs.Str.{bytes_eq};
ghost use Rattle.outside_model.specs.Holding.{held_among};
ghost use Rattle.outside_model.specs.Files.{IsStored};
ghost use Rattle.batch_run.specs.Faults.{faults_of_load};
ghost use Rattle.batch_run.specs.InMemory.{open_holding, closed_holding};

use crate::files::LoadFault;
use problem_data::{NoMemory, Text};
use std::alloc::Global;
use std::marker::Model;

/// Names with their bytes. Contracts see them as a list.
#[derive(Debug, Drop)]
pub(super) struct NamedBytes {
    entries: Vec<(Text, Text)>,
}

impl Model for NamedBytes {
    ghost use Rattle.std.specs.Prelude.{ℕ, List};

    ghost Value = { List (List ℕ × List ℕ) };

    ghost view = { λ named. named.entries.items };
}

/// A text of these bytes.
pub(super) fn copied(alloc: Global, bytes: &[u8]) -> Result<Text, NoMemory>
    ensures { IfOk result (λ text. text ≡ bytes.now) }
{
    let mut items = Vec::new(alloc);
    items.extend_from_slice(bytes)?;
    Ok(Text::from_vec(items))
}

/// A copy of bytes, at most `limit` of them.
pub(super) fn copied_within(alloc: Global, bytes: &[u8], limit: u64) -> Result<Vec<u8>, LoadFault>
    ensures bytes { IfOk result (λ loaded. loaded.items ≡ bytes.now) }
    ensures within { OnOk result (length bytes.now ≤ limit) }
    ensures too_long { result ≡ Err LoadFault.TooLong → limit < length bytes.now }
    ensures not_failed { result ≢ Err LoadFault.Failed }
    ensures no_fault { (name : List ℕ) → faults_of_load name result ≡ [] }
{
    if bytes.len() as u64 > limit {
        return Err(LoadFault::TooLong);
    }
    let mut items = Vec::new(alloc);
    match items.extend_from_slice(bytes) {
        Ok(()) => Ok(items),
        Err(_) => Err(LoadFault::NoMemory),
    }
}

/// The index of a name's entry.
fn place_of(entries: &[(Text, Text)], name: &[u8]) -> Option<usize>
    ensures { result ≡ position (λ entry. bytes_eq entry.0 name.now) entries.now }
{
    entries.iter().position(|entry| entry.0.items() == name)
}

/// Puts bytes into a name's entry, or adds one. Nothing changes where there is no memory.
fn set_among(entries: &mut Vec<(Text, Text)>, name: &[u8], bytes: Text) -> Result<(), NoMemory>
    ensures closed { OnOk result (IsStored (closed_holding entries.old.items) (closed_holding entries.new.items) name.now bytes) }
    ensures opened { OnOk result (IsStored (open_holding entries.old.items) (open_holding entries.new.items) name.now bytes) }
    ensures unchanged { OnErr result (entries.new.items ≡ entries.old.items) }
{
    match place_of(entries.as_slice(), name) {
        Some(place) => entries[place].1 = bytes,
        None => {
            let name = copied(*entries.allocator(), name)?;
            entries.push((name, bytes))?;
        }
    }
    Ok(())
}

impl NamedBytes {
    /// No names.
    pub(super) fn new(alloc: Global) -> NamedBytes
        ensures { result ≡ [] }
    {
        NamedBytes {
            entries: Vec::new(alloc),
        }
    }

    /// The allocator that the bytes are on.
    pub(super) fn allocator(&self) -> Global {
        *self.entries.allocator()
    }

    /// The bytes of a name.
    pub(super) fn find(&self, name: &str) -> Option<&[u8]>
        ensures found { option_copied result ≡ held_among false self.now name.now }
        ensures opened { held_among true self.now name.now ≡ Some (unwrap_or (option_copied result) []) }
    {
        let place = place_of(self.entries.as_slice(), name.as_bytes())?;
        Some(self.entries[place].1.items())
    }

    /// Puts bytes into a name, in place of what it held. Nothing changes where there is no memory.
    pub(super) fn set(&mut self, name: &str, bytes: &[u8]) -> Result<(), NoMemory>
        ensures closed { OnOk result (IsStored (closed_holding self.old) (closed_holding self.new) name.now bytes.now) }
        ensures opened { OnOk result (IsStored (open_holding self.old) (open_holding self.new) name.now bytes.now) }
        ensures unchanged { OnErr result (self.new ≡ self.old) }
    {
        let bytes = copied(self.allocator(), bytes)?;
        set_among(&mut self.entries, name.as_bytes(), bytes)
    }
}
