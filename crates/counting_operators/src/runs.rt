//! A run whose kit has an operator of the test's own.
ghost use Rattle.std.specs.Prelude.{◌≡◌, ◌≤◌, All, IfOk, length, map};
ghost use Rattle.search_model.specs.Kinds.{all_kinds};
ghost use Rattle.exchange_screens.specs.Exchanges.{exchange_kind};

use crate::counting::{Counting, Counts};
use batch_run::{MemoryFiles, MemorySink};
use depot_moves::{DepotAfter, DepotBefore};
use group_moves::{Insert, Remove, Replace};
use move_core::{Kit, Operator};
use node_moves::{Exchange, RemoveDepot, SwapTails};
use problem_data::NoMemory;
use pyvrp::run_command;
use route_moves::{SwapRoutes, SwapStar};
use std::alloc::Global;
use std::sync::Arc;
use std::sync::atomic::Ordering::SeqCst;
use std::test::Fail;

const THREE: &str =
    "NAME : three\nDIMENSION : 4\nEDGE_WEIGHT_TYPE : EUC_2D\nCAPACITY : 10\nNODE_COORD_SECTION\n1 0 0\n2 3 4\n3 6 8\n4 0 2\nDEMAND_SECTION\n1 0\n2 1\n3 1\n4 1\nDEPOT_SECTION\n1\n-1\nEOF\n";

const OUTPUT: &str =
    "Route #1: 1 2 3\nCost 20\n\nInstance                 OK                 Obj. Iters. (#)\nthree                    Y                    20          1\nFeasible: 1 of 1\n";

/// The words that ask for an instance's solution after one iteration.
fn words(alloc: Global) -> Result<Vec<String>, NoMemory> {
    let mut words = Vec::new(alloc);
    for word in ["--seed", "1", "--max_iterations", "1", "three.vrp"] {
        words.push(String::from_str(alloc, word)?)?;
    }
    Ok(words)
}

/// Says what kits for so many words are, and does nothing.
fn are_kits_for(_kits: &[Kit], _words: usize)
    requires enough { _words ≤ length _kits.now }
    requires kinds { All (λ kit. map kind_of kit.items ≡ all_kinds) _kits.now }
{}

#[test]
fn asks_an_operator_of_ones_own_and_drops_it_once(rt: HostRuntime) -> Result<(), Fail> {
    let alloc = rt.alloc();
    let words = words(alloc)?;
    let of_first = Arc::new(alloc, Counts::new())?;
    let of_others = Arc::new(alloc, Counts::new())?;
    let boxed = |exchange: Exchange| -> Result<Box<dyn Operator + Send>, NoMemory>
        ensures { IfOk result (λ operator. kind_of operator ≡ exchange_kind exchange.n exchange.m) }
    {
        let operator: Box<dyn Operator + Send> = Box::new(alloc, exchange)?;
        Ok(operator)
    };
    let counted = |exchange: Exchange, counts: &Arc<Counts>| -> Result<
        Box<dyn Operator + Send>,
        NoMemory,
    >
        ensures { IfOk result (λ operator. kind_of operator ≡ exchange_kind exchange.n exchange.m) }
    {
        let counting = Counting::new(exchange, counts.clone()?);
        let operator: Box<dyn Operator + Send> = Box::new(alloc, counting)?;
        Ok(operator)
    };
    let mut kits: Vec<Kit> = Vec::new(alloc);
    for at in 0..words.len() {
        let counts = if at == 0 { &of_first } else { &of_others };
        let operators: [Box<dyn Operator + Send>; 18] = [
            boxed(Exchange::new(1, 0))?,
            boxed(Exchange::new(2, 0))?,
            boxed(Exchange::new(3, 0))?,
            boxed(Exchange::new(1, 1))?,
            counted(Exchange::new(2, 1), counts)?,
            boxed(Exchange::new(3, 1))?,
            boxed(Exchange::new(2, 2))?,
            boxed(Exchange::new(3, 2))?,
            boxed(Exchange::new(3, 3))?,
            Box::new(alloc, SwapTails::new())?,
            Box::new(alloc, DepotBefore::new())?,
            Box::new(alloc, DepotAfter::new())?,
            Box::new(alloc, RemoveDepot::new())?,
            Box::new(alloc, Insert::new())?,
            Box::new(alloc, Remove::new())?,
            Box::new(alloc, Replace::new())?,
            Box::new(alloc, SwapRoutes::new())?,
            Box::new(alloc, SwapStar::new(alloc))?,
        ];
        kits.push(Vec::from_array(alloc, operators)?)?;
    }
    are_kits_for(kits.as_slice(), words.len());
    let mut files = MemoryFiles::new(alloc, Vec::new(alloc));
    files.set("three.vrp", THREE.as_bytes())?;
    let mut out = MemorySink::new(alloc, 500)?;
    let mut err = MemorySink::new(alloc, 500)?;
    let (status, used) = run_command(&rt, alloc, words, &mut files, &mut out, &mut err, kits);
    assert_eq!(rt; status, 0);
    assert_eq!(rt; out.written(), OUTPUT.as_bytes());
    assert_eq!(rt; used.len(), 1);
    assert!(rt; of_first.evaluations.load(SeqCst) > 0);
    assert_eq!(rt; of_first.drops.load(SeqCst), 0);
    assert_eq!(rt; of_others.evaluations.load(SeqCst), 0);
    assert_eq!(rt; of_others.drops.load(SeqCst), 4);
    drop(used);
    assert_eq!(rt; of_first.drops.load(SeqCst), 1);
    Ok(())
}
