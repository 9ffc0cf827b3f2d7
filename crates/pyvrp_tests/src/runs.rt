//! Runs of the command over files and sinks in memory.
use batch_run::{MemoryFiles, MemorySink};
use problem_data::NoMemory;
use pyvrp_program::run_program;
use std::alloc::Global;
use std::process::Abort;
use std::thread::Threads;

pub const THREE: &str =
    "NAME : three\nDIMENSION : 4\nEDGE_WEIGHT_TYPE : EUC_2D\nCAPACITY : 10\nNODE_COORD_SECTION\n1 0 0\n2 3 4\n3 6 8\n4 0 2\nDEMAND_SECTION\n1 0\n2 1\n3 1\n4 1\nDEPOT_SECTION\n1\n-1\nEOF\n";

pub const THREE_OUTPUT: &str =
    "Route #1: 2\nRoute #2: 1\nRoute #3: 3\nCost 34\n\nInstance                 OK                 Obj. Iters. (#)\nthree                    Y                    34          0\nFeasible: 1 of 1\n";

const DESCENDED_OUTPUT: &str =
    "Route #1: 1 2 3\nCost 20\n\nInstance                 OK                 Obj. Iters. (#)\nthree                    Y                    20          1\nFeasible: 1 of 1\n";

pub const REFUSED_OUTPUT: &str =
    "Instance                 OK                 Obj. Iters. (#)\nthree                    R                     -          0\nFeasible: 0 of 1\n";

/// A client at (1.5, 2), which is 2.5 from the depot.
const HALF: &str =
    "DIMENSION : 2\nEDGE_WEIGHT_TYPE : EUC_2D\nCAPACITY : 10\nNODE_COORD_SECTION\n1 0 0\n2 1.5 2\nDEMAND_SECTION\n1 0\n2 1\nDEPOT_SECTION\n1\n-1\nEOF\n";

const HALF_OUTPUT: &str =
    "Route #1: 1\nCost 6\n\nInstance                 OK                 Obj. Iters. (#)\nthree                    Y                     6          0\nFeasible: 1 of 1\n";

/// The words that ask for an instance's solution after so many iterations.
pub fn words_for(alloc: Global, iterations: &str, path: &str) -> Result<Vec<String>, NoMemory> {
    let mut words = Vec::new(alloc);
    for word in ["--seed", "1", "--max_iterations", iterations, path] {
        words.push(String::from_str(alloc, word)?)?;
    }
    Ok(words)
}

/// Runs the command on files, and compares what it answers and prints.
pub fn check_run<R: Threads + Sync + Abort>(
    rt: &R,
    alloc: Global,
    iterations: &str,
    files: &mut MemoryFiles,
    rooms: (u32, u32),
    expected: (u8, &str, &str),
) -> Result<(), NoMemory> {
    let mut out = MemorySink::new(alloc, rooms.0)?;
    let mut err = MemorySink::new(alloc, rooms.1)?;
    let words = words_for(alloc, iterations, "three.vrp")?;
    let status = run_program(rt, alloc, words, files, &mut out, &mut err);
    assert_eq!(rt; status, expected.0);
    assert_eq!(rt; out.written(), expected.1.as_bytes());
    assert_eq!(rt; err.written(), expected.2.as_bytes());
    Ok(())
}

/// Files that hold one text, of which the k-th load fails where the k-th item is true.
pub fn files_with(alloc: Global, text: &str, failing: &[bool]) -> Result<MemoryFiles, NoMemory> {
    let mut files = MemoryFiles::new(alloc, Vec::from_slice(alloc, failing)?);
    files.set("three.vrp", text.as_bytes())?;
    Ok(files)
}

#[test]
fn prints_the_random_solution(rt: HostRuntime) -> Result<(), NoMemory> {
    let mut files = files_with(rt.alloc(), THREE, &[])?;
    check_run(
        &rt,
        rt.alloc(),
        "0",
        &mut files,
        (500, 500),
        (0, THREE_OUTPUT, ""),
    )?;
    assert_eq!(rt; files.faults().len(), 0);
    Ok(())
}

#[test]
fn prints_the_descended_solution(rt: HostRuntime) -> Result<(), NoMemory> {
    let mut files = files_with(rt.alloc(), THREE, &[])?;
    let descended = (0, DESCENDED_OUTPUT, "");
    check_run(&rt, rt.alloc(), "1", &mut files, (500, 500), descended)
}

#[test]
fn reads_distances_to_the_nearest(rt: HostRuntime) -> Result<(), NoMemory> {
    let mut files = files_with(rt.alloc(), HALF, &[])?;
    let rounded = (0, HALF_OUTPUT, "");
    check_run(&rt, rt.alloc(), "0", &mut files, (500, 500), rounded)
}

#[test]
fn prints_as_much_as_the_output_takes(rt: HostRuntime) -> Result<(), NoMemory> {
    let mut files = files_with(rt.alloc(), THREE, &[])?;
    check_run(
        &rt,
        rt.alloc(),
        "0",
        &mut files,
        (110, 500),
        (4, &THREE_OUTPUT[..110], ""),
    )
}

#[test]
fn says_what_is_not_read(rt: HostRuntime) -> Result<(), NoMemory> {
    let mut failing = files_with(rt.alloc(), THREE, &[true])?;
    let unread = (1, REFUSED_OUTPUT, "pyvrp: three: cannot be read\n");
    check_run(&rt, rt.alloc(), "0", &mut failing, (500, 500), unread)?;
    assert_eq!(rt; failing.faults().len(), 1);
    let mut other = files_with(rt.alloc(), "EOF\n", &[])?;
    let refused = (
        1,
        REFUSED_OUTPUT,
        "pyvrp: three: line 0: rule 4 Missing DIMENSION\n",
    );
    check_run(&rt, rt.alloc(), "0", &mut other, (500, 500), refused)
}
