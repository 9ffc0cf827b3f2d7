//! Questions about descents.
ghost use Rattle.std.specs.Prelude.{◌≡◌, IfOk, IfSome, IsTrue, map};
ghost use Rattle.routing_model.specs.Lawful.{is_lawful};
ghost use Rattle.search_model.specs.Kinds.{all_kinds};
ghost use Rattle.exchange_screens.specs.Exchanges.{exchange_kind};
ghost use Rattle.local_search.specs.Descents.{NamesClients};

use crate::candidates::candidates_of;
use crate::moves::WEIGHTS;
use crate::plain_descent::plain_descent;
use depot_moves::{DepotAfter, DepotBefore};
use granular::{Neighbours, Proximity, neighbours};
use group_moves::{Insert, Remove, Replace};
use local_search::descend;
use move_core::{Kit, Operator, Search, Tally};
use node_moves::{Exchange, RemoveDepot, SwapTails};
use plan_texts::push_plan;
use problem_data::{NoMemory, ProblemData, Reads, Solution, Steps};
use route_moves::{SwapRoutes, SwapStar};
use std::alloc::{AllocError, Global};
use std::fmt::Write;
use std::thread::Threads;

/// How many neighbours a client has.
const NEIGHBOURS: u32 = 40;

/// What waiting and time warp weigh in a proximity.
const PROXIMITY: Proximity = Proximity {
    wait: 200,
    warp: 1000,
};

/// The places that a text names; none where one isn't there.
pub(crate) fn order_of(
    alloc: Global,
    given: &ProblemData,
    text: &str,
) -> Result<Option<Vec<u32>>, NoMemory>
    ensures { IfOk result (λ order. IfSome order (λ places. NamesClients given.now places.items)) }
{
    let places = given.client_places().end;
    let mut order = Vec::new(alloc);
    for word in text.split(' ') {
        let Ok(place) = word.parse::<u32>() else {
            return Ok(None);
        };
        if place >= places {
            return Ok(None);
        }
        order.push(place)?;
    }
    Ok(Some(order))
}

/// What a descent over a kit ends with: the lists as they are printed, their cost, and the tally of each kind in order.
#[derive(Drop)]
struct Outcome {
    lists: String,
    cost: i128,
    tallies: Vec<Tally>,
}

/// What a search and a kit hold.
fn held_by(alloc: Global, search: &Search<'_>, kit: &Kit) -> Result<Outcome, NoMemory> {
    let mut lists = String::new(alloc);
    push_plan(&mut lists, &search.solution()?)?;
    let mut tallies = Vec::new(alloc);
    for operator in kit.iter() {
        tallies.push(operator.tally())?;
    }
    Ok(Outcome {
        lists,
        cost: search.cost(),
        tallies,
    })
}

/// Says that a kit has an operator of each kind, in order, and does nothing.
fn is_kit(_kit: &Kit)
    requires { map kind_of _kit.now.items ≡ all_kinds }
{}

/// What the descent over a kit of all kinds ends with. Conditions: the plan is lawful, and the order names places.
fn descended<R: Threads + Sync>(
    rt: &R,
    alloc: Global,
    given: &ProblemData,
    plan: &Solution,
    order: &[u32],
    reads: &mut Steps<Reads>,
) -> Result<Outcome, NoMemory>
    requires lawful { IsTrue (is_lawful given.now plan.now.routes) }
    requires order { NamesClients given.now order.now }
{
    let near = neighbours(rt, alloc, given, NEIGHBOURS, PROXIMITY)?;
    let boxed = |exchange: Exchange| -> Result<Box<dyn Operator + Send>, NoMemory>
        ensures { IfOk result (λ operator. kind_of operator ≡ exchange_kind exchange.n exchange.m) }
    {
        let operator: Box<dyn Operator + Send> = Box::new(alloc, exchange)?;
        Ok(operator)
    };
    let operators: [Box<dyn Operator + Send>; 18] = [
        boxed(Exchange::new(1, 0))?,
        boxed(Exchange::new(2, 0))?,
        boxed(Exchange::new(3, 0))?,
        boxed(Exchange::new(1, 1))?,
        boxed(Exchange::new(2, 1))?,
        boxed(Exchange::new(3, 1))?,
        boxed(Exchange::new(2, 2))?,
        boxed(Exchange::new(3, 2))?,
        boxed(Exchange::new(3, 3))?,
        Box::new(alloc, SwapTails::new())?,
        Box::new(alloc, DepotBefore::new())?,
        Box::new(alloc, DepotAfter::new())?,
        Box::new(alloc, RemoveDepot::new())?,
        Box::new(alloc, Insert::new())?,
        Box::new(alloc, Remove::new())?,
        Box::new(alloc, Replace::new())?,
        Box::new(alloc, SwapRoutes::new())?,
        Box::new(alloc, SwapStar::new(alloc))?,
    ];
    let mut kit = Vec::from_array(alloc, operators)?;
    is_kit(&kit);
    let mut search = Search::new(alloc, given, plan, WEIGHTS, reads)?;
    descend(&mut search, &mut kit, &near, order, reads)?;
    held_by(alloc, &search, &kit)
}

/// The number of passes of a plain descent, and the lists that it ends with; none where it doesn't end. Condition: the plan is lawful.
fn plain_lists<R: Threads + Sync>(
    rt: &R,
    alloc: Global,
    given: &ProblemData,
    plan: &Solution,
    order: &[u32],
    reads: &mut Steps<Reads>,
) -> Result<Option<(u32, String)>, NoMemory>
    requires { IsTrue (is_lawful given.now plan.now.routes) }
{
    let near = neighbours(rt, alloc, given, NEIGHBOURS, PROXIMITY)?;
    let candidates = candidates_of(alloc, given, &near, order)?;
    let mut search = Search::new(alloc, given, plan, WEIGHTS, reads)?;
    let Some(passes) = plain_descent(alloc, &mut search, candidates.as_slice(), reads)? else {
        return Ok(None);
    };
    let mut lists = String::new(alloc);
    push_plan(&mut lists, &search.solution()?)?;
    Ok(Some((passes, lists)))
}

/// The lists that a descent ends with, their cost, the passes of a plain descent and the moves taken of each kind; none where a plain
/// descent ends with other lists. Conditions: the plan is lawful, and the order names places.
pub(crate) fn answer_descent<R: Threads + Sync>(
    rt: &R,
    alloc: Global,
    given: &ProblemData,
    plan: &Solution,
    order: &[u32],
    reads: &mut Steps<Reads>,
) -> Result<Option<String>, NoMemory>
    requires lawful { IsTrue (is_lawful given.now plan.now.routes) }
    requires order { NamesClients given.now order.now }
{
    let Some((passes, plain_lists)) = plain_lists(rt, alloc, given, plan, order, reads)? else {
        return Ok(None);
    };
    let Outcome {
        lists,
        cost,
        tallies,
    } = descended(rt, alloc, given, plan, order, reads)?;
    if lists != plain_lists {
        return Ok(None);
    }
    let mut text = format!(in alloc; "lists {lists}\ncost {cost}\npasses {passes}\ntaken")?;
    for tally in tallies.iter() {
        let taken = tally.applied;
        write!(text, " {taken}")?;
    }
    text.push('\n')?;
    Ok(Some(text))
}

/// How many candidates a descent tries. Conditions: the plan is lawful, and the order names places.
pub(crate) fn answer_tries<R: Threads + Sync>(
    rt: &R,
    alloc: Global,
    given: &ProblemData,
    plan: &Solution,
    order: &[u32],
    reads: &mut Steps<Reads>,
) -> Result<String, NoMemory>
    requires lawful { IsTrue (is_lawful given.now plan.now.routes) }
    requires order { NamesClients given.now order.now }
{
    let mut tries: u64 = 0;
    for tally in descended(rt, alloc, given, plan, order, reads)?
        .tallies
        .iter()
    {
        tries = tries.saturating_add(tally.tried);
    }
    Ok(format!(in alloc; "tried {tries}\n")?)
}
