//! A sink in memory.
ghost use Rattle.std.specs.Prelude.{◌≡◌, ◌↔◌, ◌+◌, ◌-◌, ◌^◌, ◌<◌, ◌≤◌, [], ◌++◌, length, take, Some, IsOk, IfOk, OnOk, OnErr};
ghost use Rattle.outside_model.specs.Sinks.{Appended, AppendedPart, Rose};

use crate::sink::{Failed, Sink, raise};
use problem_data::NoMemory;
use std::alloc::Global;
use std::marker::Model;

/// Takes bytes in memory, as many as it has room for, and fails at the first byte more.
#[derive(Debug, Drop)]
pub struct MemorySink {
    bytes: Vec<u8>,
    room: usize,
    faults: u64,
}

impl Model for MemorySink {
    ghost use Rattle.std.specs.Prelude.{◌≤◌, vec_len, vec_capacity};
    ghost use Rattle.batch_run.specs.InMemory.{SinkInMemory};

    ghost Value = { SinkInMemory };

    ghost view = { λ sink. record { written = sink.bytes.items; room = sink.room; faults = sink.faults } };

    ghost invariant = { λ sink. (vec_len sink.bytes ≤ sink.room) × (sink.room ≤ vec_capacity sink.bytes) };
}

impl MemorySink {
    /// A sink that takes `room` bytes, which it makes room for.
    pub fn new(alloc: Global, room: u32) -> Result<MemorySink, NoMemory>
        ensures { IfOk result (λ sink. sink ≡ record { written = []; room = room; faults = 0 }) }
    {
        let room = room as usize;
        let bytes = Vec::with_capacity(alloc, room)?;
        Ok(MemorySink {
            bytes,
            room,
            faults: 0,
        })
    }

    /// The bytes that it took.
    pub fn written(&self) -> &[u8]
        ensures { result.now ≡ self.now.written }
    {
        self.bytes.as_slice()
    }
}

impl Sink for MemorySink {
    ghost written = { λ sink. Some sink.written };

    ghost faults = { λ sink. sink.faults };

    /// Takes the bytes that there is room for. Takes no memory.
    fn put(&mut self, bytes: &[u8]) -> Result<(), Failed>
        ensures whole { OnOk result (Appended (Some self.old.written) (Some self.new.written) bytes.now) }
        ensures part { OnErr result (AppendedPart (Some self.old.written) (Some self.new.written) bytes.now) }
        ensures later { self.old.faults ≤ self.new.faults }
        ensures fits { IsOk result ↔ (length self.old.written + length bytes.now ≤ self.old.room) }
        ensures taken { self.new.written ≡ self.old.written ++ take (self.old.room - length self.old.written) bytes.now }
        ensures room { self.new.room ≡ self.old.room }
        ensures cause { OnErr result (Rose self.old.faults self.new.faults) }
        ensures counted { OnErr result (self.old.faults < 2 ^ 64 - 1 → self.new.faults ≡ self.old.faults + 1) }
        ensures uncounted { OnOk result (self.new.faults ≡ self.old.faults) }
    {
        let space = self.room - self.bytes.len();
        if bytes.len() <= space {
            let _ = self.bytes.extend_from_slice(bytes);
            return Ok(());
        }
        let _ = self.bytes.extend_from_slice(&bytes[..space]);
        raise(&mut self.faults);
        Err(Failed)
    }
}
