//! Instances' bytes, read and searched.
ghost use Rattle.std.specs.Prelude.{◌≡◌, IfOk, IfSome, length, map};
ghost use Rattle.problem_data.specs.Places.{vehicle_count};
ghost use Rattle.problem_data.specs.Valid.{IsValid};
ghost use Rattle.search_model.specs.Kinds.{all_kinds};
ghost use Rattle.vrplib_model.specs.Reading.{read};
ghost use Rattle.command_model.specs.PlainSearch.{plain_search};
ghost use Rattle.pyvrp.specs.inside.Options.{run_params};
ghost use Rattle.pyvrp.specs.Solving.{AreOptions, IsOutcome, RoseInRun, Tells};
ghost use Rattle.pyvrp.specs.inside.Report.{answer_with, plan_found, text_with};

use crate::outcome::{Answer, Outcome};
use command_model::Options;
use genetic::{Found, Params, solve};
use move_core::{Kit, Operator};
use problem_data::{NoMemory, Problem, ProblemData, Text};
use solution_write::write_solution;
use std::alloc::Global;
use std::thread::Threads;
use vrplib_read::{ReadFault, read_instance};

/// The text of the solution that was found, or nothing.
fn text_of(alloc: Global, problem: &Problem, found: &Found) -> Result<Vec<u8>, NoMemory>
    requires { IfSome (plan_found found.now) (λ routes. length routes ≡ vehicle_count problem.now) }
    ensures { IfOk result (λ text. text.items ≡ text_with problem.now (plan_found found.now) found.now.cost) }
{
    match (&found.best, found.cost) {
        (Some(solution), Some(cost)) => write_solution(alloc, problem, solution, cost),
        _ => Ok(Vec::new(alloc)),
    }
}

/// The answer of what was found.
fn answer_with(alloc: Global, problem: &Problem, found: &Found) -> Result<Answer, NoMemory>
    requires { IfSome (plan_found found.now) (λ routes. length routes ≡ vehicle_count problem.now) }
    ensures { IfOk result (λ answer. answer ≡ answer_with problem.now found.now) }
{
    let text = text_of(alloc, problem, found)?;
    Ok(Answer {
        cost: found.cost,
        iterations: found.iterations,
        text: Text::from_vec(text),
    })
}

/// The parameters of a problem's run: where iterations are counted per client, both limits are multiplied by the number of clients.
fn params_for(options: &Options, problem: &Problem) -> Params
    requires valid { IsValid problem.now }
    requires options { AreOptions options.now }
    ensures { result ≡ run_params options.now problem.now }
{
    let mut params = options.params;
    if options.per_client {
        let clients = problem.clients.items().len() as u64;
        params.max_iterations *= clients;
        params.no_improvement = match params.no_improvement {
            Some(limit) => Some(limit * clients),
            None => None,
        };
    }
    params
}

/// Searches a problem. Conditions: the problem is valid, the options are within their ranges, and the kit has an operator of each
/// kind, in order.
fn solved<R: Threads + Sync>(
    rt: &R,
    alloc: Global,
    problem: Problem,
    options: &Options,
    kit: Kit,
) -> Result<(Answer, Kit), NoMemory>
    requires valid { IsValid problem }
    requires options { AreOptions options.now }
    requires kinds { map kind_of kit.items ≡ all_kinds }
    ensures answer { IfOk result (λ r. Tells problem (plain_search options.now problem) r.0) }
    ensures kinds { IfOk result (λ r. map kind_of r.1.items ≡ all_kinds) }
    ensures rises { IfOk result (λ r. RoseInRun options.now problem (map tally_of kit.items) (map tally_of r.1.items)) }
{
    let given = ProblemData::new(alloc, problem)?;
    let params = params_for(options, given.problem());
    let (found, kit) = solve(rt, alloc, &given, params, options.seed, kit)?;
    let answer = answer_with(alloc, given.problem(), &found)?;
    Ok((answer, kit))
}

/// Reads an instance's bytes and searches its problem: the plain search of the definitions, whatever operators the kit has.
///
/// The answer has the cost of the best feasible solution, if one was found, its text, and the iterations done; the kit is handed back
/// with what its operators counted. Where iterations are counted per client, both limits are multiplied by the number of clients.
///
/// Conditions: both limits are at most 1,000,000,000, all other parameters are within their ranges, and the kit has an operator of
/// each kind, in order. Refused exactly where the definition of the format refuses the text, with its line and rule. Where the text is
/// refused or memory runs out the kit is dropped.
pub fn solve_bytes<R: Threads + Sync>(
    rt: &R,
    alloc: Global,
    bytes: &[u8],
    options: &Options,
    kit: Kit,
) -> Outcome<Kit>
    requires options { AreOptions options.now }
    requires kinds { map kind_of kit.items ≡ all_kinds }
    ensures { IsOutcome (read options.now.mode bytes.now) (λ problem answer k.
        Tells problem (plain_search options.now problem) answer
        × (map kind_of k.items ≡ all_kinds)
        × RoseInRun options.now problem (map tally_of kit.items) (map tally_of k.items)) result }
{
    match read_instance(alloc, bytes, options.mode) {
        Ok(problem) => match solved(rt, alloc, problem, options, kit) {
            Ok((answer, kit)) => Outcome::Solved(answer, kit),
            Err(NoMemory) => Outcome::NoMemory,
        },
        Err(ReadFault::Refused(refusal)) => Outcome::Refused(refusal),
        Err(ReadFault::NoMemory) => Outcome::NoMemory,
    }
}
