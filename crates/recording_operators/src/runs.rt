//! The same run by the command, by an instance's bytes, and by the public calls.
ghost use Rattle.std.specs.Prelude.{◌≡◌, ◌≤◌, All, IfOk, None, length, map};
ghost use Rattle.search_model.specs.Kinds.{all_kinds};
ghost use Rattle.genetic_model.specs.Ranges.{IsInRange};
ghost use Rattle.exchange_screens.specs.Exchanges.{exchange_kind};

use crate::own_run::OwnRun;
use crate::recording::{Record, Recording};
use batch_run::{MemoryFiles, MemorySink};
use depot_moves::{DepotAfter, DepotBefore};
use genetic_model::{GeneticParams, NeighbourhoodParams, Params, PenaltyParams, PopulationParams};
use group_moves::{Insert, Remove, Replace};
use move_core::{Kit, Operator};
use node_moves::{Exchange, RemoveDepot, SwapTails};
use problem_data::{NoMemory, ProblemData};
use pyvrp::{Options, Outcome, run_command, solve_bytes};
use route_moves::{SwapRoutes, SwapStar};
use std::alloc::Global;
use std::mem;
use std::sync::Arc;
use std::test::Fail;
use std::thread::Threads;
use vrp_num::Rounding;
use vrplib_read::read_instance;

const TINY: &str =
    "NAME : \ttiny\nCOMMENT : \t\"by: nobody, see: none\"\nTYPE : \tCVRP\nDIMENSION : \t3\nEDGE_WEIGHT_TYPE : \tEUC_2D\nCAPACITY : \t10\nNODE_COORD_SECTION\n1\t0\t0\n2\t3\t4\n3\t0\t5\nDEMAND_SECTION\n1\t0\n2\t7\n3\t8\nDEPOT_SECTION\n\t1\n\t-1\nEOF\n";

/// The words that ask for five iterations on the instance.
fn words(alloc: Global) -> Result<Vec<String>, NoMemory>
    ensures { IfOk result (λ words. length words.items ≡ 5) }
{
    let mut words = Vec::new(alloc);
    for word in ["--seed", "1", "--max_iterations", "5", "tiny.vrp"] {
        words.push(String::from_str(alloc, word)?)?;
    }
    Ok(words)
}

/// The default parameters, and five iterations.
fn params() -> Params
    ensures tables { IsInRange result }
    ensures iterations { result.max_iterations ≡ 5 }
    ensures no_improvement { result.no_improvement ≡ None }
{
    Params {
        population: PopulationParams {
            min_pop_size: 25,
            generation_size: 40,
            nb_elite: 4,
            nb_close: 5,
            lb_diversity: 100,
            ub_diversity: 500,
        },
        penalty: PenaltyParams {
            init_load: 20,
            init_warp: 6,
            init_distance: 6,
            increase: 1340,
            decrease: 320,
            target: 430,
            between: 50,
        },
        genetic: GeneticParams {
            repair_probability: 800,
            repair_booster: 12,
            nb_iter_no_improvement: 20_000,
        },
        neighbourhood: NeighbourhoodParams {
            nb_granular: 40,
            weight_wait_time: 200,
            weight_time_warp: 1000,
        },
        max_iterations: 5,
        no_improvement: None,
    }
}

/// Whether a run by the public calls finds the cheapest plan.
fn run_by_calls<R: Threads + Sync>(rt: &R, alloc: Global, mut kit: Kit) -> Result<bool, Fail>
    requires { map kind_of kit.items ≡ all_kinds }
{
    let problem = read_instance(alloc, TINY.as_bytes(), Rounding::Round)?;
    let given = ProblemData::new(alloc, problem)?;
    let params = params();
    let mut run = OwnRun::new(rt, alloc, &given, params, 1)?;
    for _ in 0..params.max_iterations {
        run.iterate(&mut kit)?;
    }
    Ok(run.best_cost() == Some(20))
}

/// Whether a run by the instance's bytes finds the cheapest plan.
fn run_by_bytes<R: Threads + Sync>(rt: &R, alloc: Global, kit: Kit) -> bool
    requires { map kind_of kit.items ≡ all_kinds }
{
    let options = Options {
        seed: 1,
        mode: Rounding::Round,
        per_client: false,
        params: params(),
    };
    match solve_bytes(rt, alloc, TINY.as_bytes(), &options, kit) {
        Outcome::Solved(answer, _) => answer.cost == Some(20),
        _ => false,
    }
}

/// How a run is made.
#[derive(Clone, Copy, Debug)]
enum Way {
    Command,
    Bytes,
    Calls,
}

/// Whether a run by the command ends well.
fn run_by_command<R: Threads + Sync>(rt: &R, alloc: Global, kits: Vec<Kit>) -> Result<bool, Fail>
    requires enough { 5 ≤ length kits.items }
    requires kinds { All (λ kit. map kind_of kit.items ≡ all_kinds) kits.items }
{
    let mut files = MemoryFiles::new(alloc, Vec::new(alloc));
    files.set("tiny.vrp", TINY.as_bytes())?;
    let mut out = MemorySink::new(alloc, 500)?;
    let mut err = MemorySink::new(alloc, 500)?;
    let words = words(alloc)?;
    let (status, _) = run_command(rt, alloc, words, &mut files, &mut out, &mut err, kits);
    Ok(status == 0)
}

/// Makes a run in a way with the first of the kits, and fails where it doesn't find the cheapest plan.
fn run_in_way<R: Threads + Sync>(
    rt: &R,
    alloc: Global,
    way: Way,
    mut kits: Vec<Kit>,
) -> Result<(), Fail>
    requires enough { 5 ≤ length kits.items }
    requires kinds { All (λ kit. map kind_of kit.items ≡ all_kinds) kits.items }
{
    let is_found = match way {
        Way::Command => run_by_command(rt, alloc, kits)?,
        Way::Bytes => {
            let kit = mem::replace(&mut kits[0], Vec::new(alloc));
            run_by_bytes(rt, alloc, kit)
        }
        Way::Calls => {
            let kit = mem::replace(&mut kits[0], Vec::new(alloc));
            run_by_calls(rt, alloc, kit)?
        }
    };
    if is_found {
        Ok(())
    } else {
        Err(Fail::new("the cheapest plan isn't found"))
    }
}

/// Says what kits are, and does nothing.
fn are_kits(_kits: &[Kit])
    requires enough { 5 ≤ length _kits.now }
    requires kinds { All (λ kit. map kind_of kit.items ≡ all_kinds) _kits.now }
{}

/// Makes a run in a way, with kits whose operators share a record; what they were asked.
fn recorded_run<R: Threads + Sync>(rt: &R, alloc: Global, way: Way) -> Result<Arc<Record>, Fail> {
    let record = Arc::new(alloc, Record::new(alloc, 18)?)?;
    let recorded = |exchange: Exchange, number: usize, record: &Arc<Record>| -> Result<
        Box<dyn Operator + Send>,
        NoMemory,
    >
        ensures { IfOk result (λ operator. kind_of operator ≡ exchange_kind exchange.n exchange.m) }
    {
        let recording = Recording::new(exchange, number, record.clone()?);
        let operator: Box<dyn Operator + Send> = Box::new(alloc, recording)?;
        Ok(operator)
    };
    let mut kits: Vec<Kit> = Vec::new(alloc);
    for _ in 0..5_u32 {
        let operators: [Box<dyn Operator + Send>; 18] = [
            recorded(Exchange::new(1, 0), 0, &record)?,
            recorded(Exchange::new(2, 0), 1, &record)?,
            recorded(Exchange::new(3, 0), 2, &record)?,
            recorded(Exchange::new(1, 1), 3, &record)?,
            recorded(Exchange::new(2, 1), 4, &record)?,
            recorded(Exchange::new(3, 1), 5, &record)?,
            recorded(Exchange::new(2, 2), 6, &record)?,
            recorded(Exchange::new(3, 2), 7, &record)?,
            recorded(Exchange::new(3, 3), 8, &record)?,
            Box::new(alloc, Recording::new(SwapTails::new(), 9, record.clone()?))?,
            Box::new(
                alloc,
                Recording::new(DepotBefore::new(), 10, record.clone()?),
            )?,
            Box::new(
                alloc,
                Recording::new(DepotAfter::new(), 11, record.clone()?),
            )?,
            Box::new(
                alloc,
                Recording::new(RemoveDepot::new(), 12, record.clone()?),
            )?,
            Box::new(alloc, Recording::new(Insert::new(), 13, record.clone()?))?,
            Box::new(alloc, Recording::new(Remove::new(), 14, record.clone()?))?,
            Box::new(alloc, Recording::new(Replace::new(), 15, record.clone()?))?,
            Box::new(
                alloc,
                Recording::new(SwapRoutes::new(), 16, record.clone()?),
            )?,
            Box::new(
                alloc,
                Recording::new(SwapStar::new(alloc), 17, record.clone()?),
            )?,
        ];
        kits.push(Vec::from_array(alloc, operators)?)?;
    }
    are_kits(kits.as_slice());
    run_in_way(rt, alloc, way, kits)?;
    Ok(record)
}

#[test]
fn asks_what_a_run_by_the_public_calls_asks(rt: HostRuntime) -> Result<(), Fail> {
    let alloc = rt.alloc();
    let by_calls = recorded_run(&rt, alloc, Way::Calls)?;
    let by_command = recorded_run(&rt, alloc, Way::Command)?;
    let by_bytes = recorded_run(&rt, alloc, Way::Bytes)?;
    assert!(rt; by_calls.mixed() != 0);
    assert_eq!(rt; by_command.mixed(), by_calls.mixed());
    assert_eq!(rt; by_bytes.mixed(), by_calls.mixed());
    assert_eq!(rt; by_command.counts(alloc)?, by_calls.counts(alloc)?);
    assert_eq!(rt; by_bytes.counts(alloc)?, by_calls.counts(alloc)?);
    Ok(())
}
