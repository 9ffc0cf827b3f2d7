//! Questions that draw orders and plans.
ghost use Rattle.std.specs.Prelude.{IfOk, IsTrue};
ghost use Rattle.routing_model.specs.Lawful.{is_lawful};

use crate::session::Session;
use penalty_cost::{is_lawful, is_plan, solution_cost};
use plan_texts::push_plan;
use problem_data::{NoMemory, ProblemData, Reads, Solution, Steps};
use route_rings::route_order;
use routing_model::Weights;
use srex::{exchange, random_order, random_solution};
use std::alloc::{AllocError, Global};
use std::fmt::Write;

/// The weights of all questions.
const WEIGHTS: Weights = Weights {
    load: 20,
    warp: 6,
    distance: 6,
};

/// A line with a word and the numbers behind it.
fn numbered(alloc: Global, word: &str, numbers: &[u32]) -> Result<String, AllocError> {
    let mut text = String::from_str(alloc, word)?;
    for number in numbers {
        write!(text, " {number}")?;
    }
    text.push('\n')?;
    Ok(text)
}

/// Whether some lists are a lawful plan.
fn is_lawful_plan(alloc: Global, given: &ProblemData, plan: &Solution) -> Result<bool, NoMemory>
    ensures { IfOk result (λ lawful. IsTrue lawful → IsTrue (is_lawful given.now plan.now.routes)) }
{
    if !is_plan(given, plan) {
        return Ok(false);
    }
    is_lawful(alloc, given, plan)
}

/// A random order of the clients.
pub(crate) fn shuffled(alloc: Global, session: &mut Session) -> Result<String, NoMemory> {
    let order = random_order(alloc, &session.given, &mut session.generator)?;
    Ok(numbered(alloc, "order", order.as_slice())?)
}

/// A random plan, which is kept.
pub(crate) fn drawn_plan(alloc: Global, session: &mut Session) -> Result<String, NoMemory> {
    let plan = random_solution(alloc, &session.given, &mut session.generator)?;
    let mut text = String::from_str(alloc, "lists ")?;
    push_plan(&mut text, &plan)?;
    text.push('\n')?;
    session.plan = plan;
    Ok(text)
}

/// The order of a plan's routes. Condition: the plan is lawful.
fn answer_ring(alloc: Global, given: &ProblemData, plan: &Solution) -> Result<String, NoMemory>
    requires { IsTrue (is_lawful given.now plan.now.routes) }
{
    given.validity();
    let order = route_order(alloc, given, plan.routes.items())?;
    Ok(numbered(alloc, "ring", order.as_slice())?)
}

/// What a plan costs, and its lists. Condition: the plan is lawful.
fn answer_plan(
    alloc: Global,
    given: &ProblemData,
    plan: &Solution,
    reads: &mut Steps<Reads>,
) -> Result<String, NoMemory>
    requires { IsTrue (is_lawful given.now plan.now.routes) }
{
    given.validity();
    let cost = solution_cost(given, plan, WEIGHTS, reads);
    let mut text = format!(in alloc; "cost {cost} lists ")?;
    push_plan(&mut text, plan)?;
    text.push('\n')?;
    Ok(text)
}

/// The order of the plan's routes; none where it isn't lawful.
pub(crate) fn ring(alloc: Global, session: &Session) -> Result<Option<String>, NoMemory> {
    let Session { given, plan, .. } = session;
    if !is_lawful_plan(alloc, given, plan)? {
        return Ok(None);
    }
    Ok(Some(answer_ring(alloc, given, plan)?))
}

/// The child of the two plans, which is kept as the plan, and its cost; none where one of them isn't lawful.
pub(crate) fn child(
    alloc: Global,
    session: &mut Session,
    reads: &mut Steps<Reads>,
) -> Result<Option<String>, NoMemory> {
    let Session {
        given,
        plan,
        other,
        generator,
    } = session;
    if !is_lawful_plan(alloc, given, plan)? || !is_lawful_plan(alloc, given, other)? {
        return Ok(None);
    }
    let child = exchange(alloc, given, plan, other, WEIGHTS, generator, reads)?;
    let answer = answer_plan(alloc, given, &child, reads)?;
    *plan = child;
    Ok(Some(answer))
}
