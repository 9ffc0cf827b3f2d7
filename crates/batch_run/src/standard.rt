//! Standard output and standard error.
ghost use Rattle.std.specs.Prelude.{◌≡◌, ◌≤◌, take, length, None, IfOk, OnOk, OnErr};
ghost use Rattle.std.specs.Io.KnownBytes.{Appends};
ghost use Rattle.outside_model.specs.Sinks.{Rose};

use crate::sink::{Failed, Sink, raise};
use std::io::{ErrorKind, Stderr, Stdout, Write};
use std::marker::Model;

/// How many interruptions the writes of some bytes outlast, at least. Each write that takes more than one byte makes room for more.
const INTERRUPTIONS: usize = 64;

/// One write of a piece that isn't empty: how many bytes were taken, none where it was interrupted.
fn write_once<W: Write>(stream: &mut W, piece: &[u8]) -> Result<usize, Failed>
    ensures within { IfOk result (λ count. count ≤ length piece.now) }
    ensures bytes { IfOk result (λ count. Appends (W.contents stream.old) (W.contents stream.new) (take count piece.now)) }
{
    match stream.write(piece) {
        Ok(0) => Err(Failed),
        Ok(count) => Ok(count),
        Err(error) => {
            if error.kind() == ErrorKind::Interrupted {
                return Ok(0);
            }
            Err(Failed)
        }
    }
}

/// Writes all the bytes, by as many writes as it takes.
fn write_all<W: Write>(stream: &mut W, bytes: &[u8]) -> Result<(), Failed>
    ensures { OnOk result (Appends (W.contents stream.old) (W.contents stream.new) bytes.now) }
{
    let mut done = 0;
    for _ in 0..bytes.len().saturating_add(INTERRUPTIONS) {
        if done >= bytes.len() {
            break;
        }
        done += write_once(stream, &bytes[done..])?;
    }
    if done < bytes.len() {
        return Err(Failed);
    }
    stream.flush().map_err(|_| Failed)
}

/// Writes all the bytes to a stream, by as many writes as it takes, and counts a failure.
pub fn put_counted<W: Write>(stream: &mut W, faults: &mut u64, bytes: &[u8]) -> Result<(), Failed>
    ensures whole { OnOk result (Appends (W.contents stream.old) (W.contents stream.new) bytes.now) }
    ensures cause { OnErr result (Rose faults.old faults.new) }
    ensures later { faults.old ≤ faults.new }
    ensures uncounted { OnOk result (faults.new ≡ faults.old) }
{
    if write_all(stream, bytes).is_err() {
        raise(faults);
        return Err(Failed);
    }
    Ok(())
}

/// Standard output. It doesn't tell what was written.
#[derive(Drop)]
pub struct StandardOutput {
    stream: Stdout,
    faults: u64,
}

impl Model for StandardOutput {
    ghost use Rattle.std.specs.Prelude.{ℕ};

    ghost Value = { ℕ };

    ghost view = { λ sink. sink.faults };
}

impl StandardOutput {
    /// The program's standard output, as its runtime gives it.
    pub fn new(stream: Stdout) -> StandardOutput
        ensures { result ≡ 0 }
    {
        StandardOutput { stream, faults: 0 }
    }
}

impl Sink for StandardOutput {
    ghost written = { λ _. None };

    ghost faults = { λ sink. sink };

    fn put(&mut self, bytes: &[u8]) -> Result<(), Failed> {
        put_counted(&mut self.stream, &mut self.faults, bytes)
    }
}

/// Standard error. It doesn't tell what was written.
#[derive(Drop)]
pub struct StandardError {
    stream: Stderr,
    faults: u64,
}

impl Model for StandardError {
    ghost use Rattle.std.specs.Prelude.{ℕ};

    ghost Value = { ℕ };

    ghost view = { λ sink. sink.faults };
}

impl StandardError {
    /// The program's standard error, as its runtime gives it.
    pub fn new(stream: Stderr) -> StandardError
        ensures { result ≡ 0 }
    {
        StandardError { stream, faults: 0 }
    }
}

impl Sink for StandardError {
    ghost written = { λ _. None };

    ghost faults = { λ sink. sink };

    fn put(&mut self, bytes: &[u8]) -> Result<(), Failed> {
        put_counted(&mut self.stream, &mut self.faults, bytes)
    }
}
