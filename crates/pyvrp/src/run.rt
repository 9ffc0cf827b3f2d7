//! The run of the command: from its words to its texts and its status.
ghost use Rattle.std.specs.Prelude.{◌≡◌, ◌≢◌, ◌≤◌, [], All, IfOk, OnErr, length, map, string_bytes, true, false};
ghost use Rattle.outside_model.specs.Delivery.{Delivers, Effects};
ghost use Rattle.outside_model.specs.Sinks.{HasFault, HoldsWhole, IsGiven, IsUntouched, sink_of};
ghost use Rattle.batch_run.specs.Loads.{files_of};
ghost use Rattle.search_model.specs.Kinds.{all_kinds};
ghost use Rattle.command_model.specs.Words.{asked};
ghost use Rattle.pyvrp.specs.Run.{Runs};
ghost use Rattle.pyvrp.specs.Solving.{AreOptions, iteration_limit};
ghost use Rattle.pyvrp.specs.inside.Asked.{shown};
ghost use Rattle.pyvrp.specs.inside.Texts.{ComesOfBytes, ComesOfPath, HasTextsOf, IsEffects, TellsEffects};

use crate::options::options_of;
use crate::outcome::{Instance, Outcome};
use crate::report::{error_text, output_text, status_of};
use crate::solving::solve_bytes;
use crate::words::{Asked, base_name, read_words};
use batch_run::{Files, LoadFault, Sink};
use command_model::Options;
use move_core::{Kit, Operator};
use problem_data::NoMemory;
use std::alloc::Global;
use std::mem;
use std::thread::Threads;

/// The most bytes of an instance: 64 MiB.
const LARGEST_FILE: u64 = 64 << 20;

/// The line where the words are wrong.
const WRONG_WORDS: &str = "pyvrp: wrong words\n";

/// The status where the words are wrong.
const WRONG: u8 = 2;

/// The status for want of memory.
pub const NO_MEMORY: u8 = 3;

/// The status where an output failed.
const FAILED_OUTPUT: u8 = 4;

/// The texts and the status of a run.
#[derive(Drop)]
struct Texts {
    out: Vec<u8>,
    err: Vec<u8>,
    status: u8,
}

/// Reads an instance's bytes and searches its problem with the first kit. Left are the kits that were used.
fn instance_of_bytes<R: Threads + Sync>(
    rt: &R,
    alloc: Global,
    bytes: &[u8],
    options: &Options,
    kits: &mut Vec<Kit>,
) -> Result<Instance, NoMemory>
    requires options { AreOptions options.now }
    requires some { 1 ≤ length kits.old.items }
    requires kinds { All (λ kit. map kind_of kit.items ≡ all_kinds) kits.old.items }
    ensures kinds { All (λ kit. map kind_of kit.items ≡ all_kinds) kits.new.items }
    ensures comes { IfOk result (ComesOfBytes options.now bytes.now (map (λ kit. map tally_of kit.items) kits.old.items) (map (λ kit. map tally_of kit.items) kits.new.items)) }
{
    let kit = mem::replace(&mut kits[0], Vec::new(alloc));
    match solve_bytes(rt, alloc, bytes, options, kit) {
        Outcome::Solved(answer, kit) => {
            kits[0] = kit;
            kits.truncate(1);
            Ok(Instance::Solved(answer))
        }
        Outcome::Refused(refusal) => {
            kits.clear();
            Ok(Instance::Refused(refusal))
        }
        Outcome::NoMemory => {
            kits.clear();
            Err(NoMemory)
        }
    }
}

/// Loads, reads and searches an instance. Left are the kits that were used.
fn instance_of_path<R: Threads + Sync, F: Files>(
    rt: &R,
    alloc: Global,
    path: &str,
    options: &Options,
    kits: &mut Vec<Kit>,
    files: &mut F,
) -> Result<Instance, NoMemory>
    requires options { AreOptions options.now }
    requires some { 1 ≤ length kits.old.items }
    requires kinds { All (λ kit. map kind_of kit.items ≡ all_kinds) kits.old.items }
    ensures kinds { All (λ kit. map kind_of kit.items ≡ all_kinds) kits.new.items }
    ensures found { IfOk result (ComesOfPath options.now path.now
        (files_of (F.holding files.old) (F.holding files.new) (F.faults files.old) (F.faults files.new))
        (map (λ kit. map tally_of kit.items) kits.old.items) (map (λ kit. map tally_of kit.items) kits.new.items)) }
    ensures kept { F.holding files.new ≡ F.holding files.old }
{
    match files.load(path, LARGEST_FILE) {
        Ok(bytes) => instance_of_bytes(rt, alloc, bytes.as_slice(), options, kits),
        Err(fault) => {
            kits.clear();
            match fault {
                LoadFault::Failed => Ok(Instance::Unreadable),
                LoadFault::TooLong => Ok(Instance::Oversized),
                LoadFault::NoMemory => Err(NoMemory),
            }
        }
    }
}

/// The texts and the status that come of an instance.
fn texts_of(alloc: Global, path: &str, instance: &Instance) -> Result<Texts, NoMemory>
    ensures { IfOk result (TellsEffects path.now instance.now) }
{
    let name = base_name(path);
    Ok(Texts {
        out: output_text(alloc, name, instance)?,
        err: error_text(alloc, name, instance)?.into_bytes(),
        status: status_of(instance),
    })
}

/// Loads, reads and searches the instance that is asked for, and makes its texts. Left are the kits that were used.
fn texts_of_path<R: Threads + Sync, F: Files>(
    rt: &R,
    alloc: Global,
    asked: &Asked<'_>,
    kits: &mut Vec<Kit>,
    files: &mut F,
) -> Result<Texts, NoMemory>
    requires few { asked.now.iterations ≤ iteration_limit }
    requires some { 1 ≤ length kits.old.items }
    requires kinds { All (λ kit. map kind_of kit.items ≡ all_kinds) kits.old.items }
    ensures kinds { All (λ kit. map kind_of kit.items ≡ all_kinds) kits.new.items }
    ensures found { IfOk result (HasTextsOf (shown asked.now)
        (files_of (F.holding files.old) (F.holding files.new) (F.faults files.old) (F.faults files.new))
        (map (λ kit. map tally_of kit.items) kits.old.items) (map (λ kit. map tally_of kit.items) kits.new.items)) }
    ensures kept { F.holding files.new ≡ F.holding files.old }
{
    let options = options_of(asked);
    let instance = instance_of_path(rt, alloc, asked.path, &options, kits, files)?;
    texts_of(alloc, asked.path, &instance)
}

/// Puts the bytes, and says whether the sink took them all.
fn put_all<S: Sink>(sink: &mut S, bytes: &[u8]) -> bool
    ensures given { IsGiven bytes.now
        (sink_of (S.written sink.old) (S.written sink.new) (S.faults sink.old) (S.faults sink.new)) }
    ensures whole { result ≡ true → HoldsWhole bytes.now
        (sink_of (S.written sink.old) (S.written sink.new) (S.faults sink.old) (S.faults sink.new)) }
    ensures fault { result ≡ false → HasFault
        (sink_of (S.written sink.old) (S.written sink.new) (S.faults sink.old) (S.faults sink.new)) }
{
    sink.put(bytes).is_ok()
}

/// Puts the texts, errors first, and answers the status.
fn deliver<O: Sink, E: Sink>(texts: &Texts, out: &mut O, err: &mut E) -> u8
    ensures { (effects : Effects) → IsEffects effects texts.now → Delivers effects
        (sink_of (O.written out.old) (O.written out.new) (O.faults out.old) (O.faults out.new))
        (sink_of (E.written err.old) (E.written err.new) (E.faults err.old) (E.faults err.new)) result }
{
    let is_err_whole = put_all(err, texts.err.as_slice());
    let is_out_whole = put_all(out, texts.out.as_slice());
    if is_err_whole && is_out_whole {
        texts.status
    } else {
        FAILED_OUTPUT
    }
}

/// Runs the command.
///
/// The words are `--seed S --max_iterations N NAME`. The instance is loaded from the files, read and searched; its plan and the table
/// are put to `out`, and before that the line of its fault, if it has one, to `err`.
///
/// Conditions: there are at least as many kits as words, and each kit has an operator of each kind, in order. The first kit does the
/// search, and is handed back where the instance was read; all others are dropped at the end.
///
/// The status is 2 where the words are wrong, 3 for want of memory (nothing was put then), 4 where an output failed, 1 where the
/// instance wasn't read, and else 0.
pub fn run_command<R: Threads + Sync, F: Files, O: Sink, E: Sink>(
    rt: &R,
    alloc: Global,
    words: Vec<String>,
    files: &mut F,
    out: &mut O,
    err: &mut E,
    mut kits: Vec<Kit>,
) -> (u8, Vec<Kit>)
    requires enough { length words.items ≤ length kits.items }
    requires kinds { All (λ kit. map kind_of kit.items ≡ all_kinds) kits.items }
    ensures runs { result.0 ≢ 3 → Runs (asked (map string_bytes words.items))
        (files_of (F.holding files.old) (F.holding files.new) (F.faults files.old) (F.faults files.new))
        (sink_of (O.written out.old) (O.written out.new) (O.faults out.old) (O.faults out.new))
        (sink_of (E.written err.old) (E.written err.new) (E.faults err.old) (E.faults err.new))
        (map (λ kit. map tally_of kit.items) kits.items) (map (λ kit. map tally_of kit.items) result.1.items) result.0 }
    ensures no_memory { result.0 ≡ 3
        → IsUntouched (sink_of (O.written out.old) (O.written out.new) (O.faults out.old) (O.faults out.new))
        × IsUntouched (sink_of (E.written err.old) (E.written err.new) (E.faults err.old) (E.faults err.new))
        × (result.1.items ≡ []) }
    ensures kinds { All (λ kit. map kind_of kit.items ≡ all_kinds) result.1.items }
    ensures kept { F.holding files.new ≡ F.holding files.old }
{
    let Some(asked) = read_words(words.as_slice()) else {
        let _taken = put_all(err, WRONG_WORDS.as_bytes());
        return (WRONG, Vec::new(alloc));
    };
    match texts_of_path(rt, alloc, &asked, &mut kits, files) {
        Ok(texts) => (deliver(&texts, out, err), kits),
        Err(NoMemory) => (NO_MEMORY, Vec::new(alloc)),
    }
}
