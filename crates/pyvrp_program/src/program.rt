//! The command with its kits. An operator's box may be made where it isn't handed out, so kits are made where the command is called.
ghost use Rattle.std.specs.Prelude.{◌≡◌, ◌≢◌, ◌≤◌, All, IfOk, OnErr, length, map, string_bytes};
ghost use Rattle.outside_model.specs.Sinks.{IsUntouched, sink_of};
ghost use Rattle.batch_run.specs.Loads.{files_of};
ghost use Rattle.search_model.specs.Kinds.{all_kinds};
ghost use Rattle.command_model.specs.Words.{asked};
ghost use Rattle.exchange_screens.specs.Exchanges.{exchange_kind};
ghost use Rattle.pyvrp.specs.Run.{RunsWithKits};

use batch_run::{Files, Sink};
use depot_moves::{DepotAfter, DepotBefore};
use group_moves::{Insert, Remove, Replace};
use move_core::{Kit, Operator};
use node_moves::{Exchange, RemoveDepot, SwapTails};
use problem_data::NoMemory;
use pyvrp::{NO_MEMORY, run_command};
use route_moves::{SwapRoutes, SwapStar};
use std::alloc::Global;
use std::thread::Threads;

/// Says what kits for so many words are, and does nothing.
fn are_kits_for(_kits: &[Kit], _words: usize)
    requires enough { _words ≤ length _kits.now }
    requires kinds { All (λ kit. map kind_of kit.items ≡ all_kinds) _kits.now }
{}

/// Runs the command with as many kits as there are words; refused where there is no memory for the kits, and then nothing was done.
fn run<R: Threads + Sync, F: Files, O: Sink, E: Sink>(
    rt: &R,
    alloc: Global,
    words: Vec<String>,
    files: &mut F,
    out: &mut O,
    err: &mut E,
) -> Result<u8, NoMemory>
    ensures runs { IfOk result (λ status. status ≢ 3 → RunsWithKits (asked (map string_bytes words.items))
        (files_of (F.holding files.old) (F.holding files.new) (F.faults files.old) (F.faults files.new))
        (sink_of (O.written out.old) (O.written out.new) (O.faults out.old) (O.faults out.new))
        (sink_of (E.written err.old) (E.written err.new) (E.faults err.old) (E.faults err.new)) status) }
    ensures no_memory { IfOk result (λ status. status ≡ 3
        → IsUntouched (sink_of (O.written out.old) (O.written out.new) (O.faults out.old) (O.faults out.new))
        × IsUntouched (sink_of (E.written err.old) (E.written err.new) (E.faults err.old) (E.faults err.new))) }
    ensures refused { OnErr result
        (IsUntouched (sink_of (O.written out.old) (O.written out.new) (O.faults out.old) (O.faults out.new))
        × IsUntouched (sink_of (E.written err.old) (E.written err.new) (E.faults err.old) (E.faults err.new))) }
    ensures kept { F.holding files.new ≡ F.holding files.old }
{
    let boxed = |exchange: Exchange| -> Result<Box<dyn Operator + Send>, NoMemory>
        ensures { IfOk result (λ operator. kind_of operator ≡ exchange_kind exchange.n exchange.m) }
    {
        let operator: Box<dyn Operator + Send> = Box::new(alloc, exchange)?;
        Ok(operator)
    };
    let mut kits: Vec<Kit> = Vec::new(alloc);
    for _ in 0..words.len() {
        let operators: [Box<dyn Operator + Send>; 18] = [
            boxed(Exchange::new(1, 0))?,
            boxed(Exchange::new(2, 0))?,
            boxed(Exchange::new(3, 0))?,
            boxed(Exchange::new(1, 1))?,
            boxed(Exchange::new(2, 1))?,
            boxed(Exchange::new(3, 1))?,
            boxed(Exchange::new(2, 2))?,
            boxed(Exchange::new(3, 2))?,
            boxed(Exchange::new(3, 3))?,
            Box::new(alloc, SwapTails::new())?,
            Box::new(alloc, DepotBefore::new())?,
            Box::new(alloc, DepotAfter::new())?,
            Box::new(alloc, RemoveDepot::new())?,
            Box::new(alloc, Insert::new())?,
            Box::new(alloc, Remove::new())?,
            Box::new(alloc, Replace::new())?,
            Box::new(alloc, SwapRoutes::new())?,
            Box::new(alloc, SwapStar::new(alloc))?,
        ];
        kits.push(Vec::from_array(alloc, operators)?)?;
    }
    are_kits_for(kits.as_slice(), words.len());
    let (status, _used) = run_command(rt, alloc, words, files, out, err, kits);
    Ok(status)
}

/// Runs the command with a kit of an operator of each kind for each word. See `run_command`, whose clauses these are.
///
/// The status is 3 where there is no memory for the kits, too.
pub fn run_program<R: Threads + Sync, F: Files, O: Sink, E: Sink>(
    rt: &R,
    alloc: Global,
    words: Vec<String>,
    files: &mut F,
    out: &mut O,
    err: &mut E,
) -> u8
    ensures runs { result ≢ 3 → RunsWithKits (asked (map string_bytes words.items))
        (files_of (F.holding files.old) (F.holding files.new) (F.faults files.old) (F.faults files.new))
        (sink_of (O.written out.old) (O.written out.new) (O.faults out.old) (O.faults out.new))
        (sink_of (E.written err.old) (E.written err.new) (E.faults err.old) (E.faults err.new)) result }
    ensures no_memory { result ≡ 3
        → IsUntouched (sink_of (O.written out.old) (O.written out.new) (O.faults out.old) (O.faults out.new))
        × IsUntouched (sink_of (E.written err.old) (E.written err.new) (E.faults err.old) (E.faults err.new)) }
    ensures kept { F.holding files.new ≡ F.holding files.old }
{
    match run(rt, alloc, words, files, out, err) {
        Ok(status) => status,
        Err(NoMemory) => NO_MEMORY,
    }
}
