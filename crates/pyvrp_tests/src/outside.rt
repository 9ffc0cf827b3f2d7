//! What the command does with files and sinks that fail or tell the order of calls.
ghost use Rattle.std.specs.Prelude.{None};

use crate::runs::{REFUSED_OUTPUT, THREE, THREE_OUTPUT, check_run, files_with, words_for};
use batch_run::{Failed, MemoryFiles, MemorySink, Nowhere, PlainFiles, Sink};
use problem_data::NoMemory;
use pyvrp_program::run_program;
use std::cell::Cell;
use std::test::Fail;

/// A sink that shares its clock with other sinks, and keeps the first and the last tick at which something was put.
#[derive(Drop)]
struct Timed<'a> {
    clock: &'a Cell<u32>,
    first: Option<u32>,
    last: Option<u32>,
}

impl<'a> Timed<'a> {
    /// A sink into which nothing was put.
    fn new(clock: &'a Cell<u32>) -> Timed<'a> {
        Timed {
            clock,
            first: None,
            last: None,
        }
    }
}

impl Sink for Timed<'_> {
    ghost written = { λ _. None };

    ghost faults = { λ _. 0 };

    fn put(&mut self, _bytes: &[u8]) -> Result<(), Failed> {
        let tick = self.clock.get().wrapping_add(1);
        self.clock.set(tick);
        if self.first.is_none() {
            self.first = Some(tick);
        }
        self.last = Some(tick);
        Ok(())
    }
}

/// A second load of the instance would fail, but none is made.
#[test]
fn loads_an_instance_once(rt: HostRuntime) -> Result<(), NoMemory> {
    let mut files = files_with(rt.alloc(), THREE, &[false, true])?;
    let solved = (0, THREE_OUTPUT, "");
    check_run(&rt, rt.alloc(), "0", &mut files, (500, 500), solved)?;
    assert_eq!(rt; files.faults().len(), 0);
    Ok(())
}

#[test]
fn puts_errors_before_the_output(rt: HostRuntime) -> Result<(), Fail> {
    let clock = Cell::new(0);
    let mut out = Timed::new(&clock);
    let mut err = Timed::new(&clock);
    let mut files = MemoryFiles::new(rt.alloc(), Vec::new(rt.alloc()));
    let asked = words_for(rt.alloc(), "0", "three.vrp")?;
    let status = run_program(&rt, rt.alloc(), asked, &mut files, &mut out, &mut err);
    assert_eq!(rt; status, 1);
    let first_output = out.first.ok_or("no output")?;
    let last_error = err.last.ok_or("no error line")?;
    assert!(rt; last_error < first_output);
    Ok(())
}

#[test]
fn refuses_wrong_words(rt: HostRuntime) -> Result<(), NoMemory> {
    let mut files = PlainFiles::new(rt.alloc());
    let mut err = MemorySink::new(rt.alloc(), 500)?;
    let words = Vec::new(rt.alloc());
    let status = run_program(&rt, rt.alloc(), words, &mut files, &mut Nowhere, &mut err);
    assert_eq!(rt; status, 2);
    assert_eq!(rt; err.written(), b"pyvrp: wrong words\n".as_slice());
    Ok(())
}

#[test]
fn answers_2_for_wrong_words_where_the_error_output_fails(rt: HostRuntime) -> Result<(), NoMemory> {
    let mut files = PlainFiles::new(rt.alloc());
    let mut out = MemorySink::new(rt.alloc(), 500)?;
    let mut err = MemorySink::new(rt.alloc(), 9)?;
    let words = Vec::new(rt.alloc());
    let status = run_program(&rt, rt.alloc(), words, &mut files, &mut out, &mut err);
    assert_eq!(rt; status, 2);
    assert_eq!(rt; out.written(), b"".as_slice());
    assert_eq!(rt; err.written(), b"pyvrp: wr".as_slice());
    Ok(())
}

#[test]
fn prints_the_output_where_the_error_output_fails(rt: HostRuntime) -> Result<(), NoMemory> {
    let mut files = files_with(rt.alloc(), "EOF\n", &[])?;
    let partly = (4, REFUSED_OUTPUT, "pyvrp: thr");
    check_run(&rt, rt.alloc(), "0", &mut files, (500, 10), partly)
}
