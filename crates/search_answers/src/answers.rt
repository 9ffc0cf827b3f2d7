//! The answers to all questions.
ghost use Rattle.std.specs.Prelude.{IfOk, IsTrue};
ghost use Rattle.routing_model.specs.Lawful.{is_lawful};

use crate::descents::{answer_descent, answer_tries, order_of};
use crate::moves::{answer_move, move_of};
use crate::session::Session;
use batch_run::Files;
use penalty_cost::{is_lawful, is_plan};
use plan_texts::plan_of;
use problem_data::{NoMemory, ProblemData, Reads, Solution, Steps};
use std::alloc::Global;
use std::str;
use std::thread::Threads;

/// The answer where there is none.
fn wrong(alloc: Global) -> Result<String, NoMemory> {
    Ok(String::from_str(alloc, "wrong\n")?)
}

/// Takes a plan, and says so.
fn take_plan(alloc: Global, session: &mut Session, text: &str) -> Result<String, NoMemory> {
    match plan_of(alloc, session.given.vehicles(), text)? {
        Some(plan) => {
            session.plan = plan;
            Ok(String::from_str(alloc, "ok\n")?)
        }
        None => wrong(alloc),
    }
}

/// Whether some lists are a lawful plan.
fn is_lawful_plan(alloc: Global, given: &ProblemData, plan: &Solution) -> Result<bool, NoMemory>
    ensures { IfOk result (λ lawful. IsTrue lawful → IsTrue (is_lawful given.now plan.now.routes)) }
{
    if !is_plan(given, plan) {
        return Ok(false);
    }
    is_lawful(alloc, given, plan)
}

/// The answer about a move of the plan.
fn about_move(
    alloc: Global,
    session: &Session,
    text: &str,
    reads: &mut Steps<Reads>,
) -> Result<String, NoMemory> {
    let Some(asked) = move_of(text) else {
        return wrong(alloc);
    };
    if !is_lawful_plan(alloc, &session.given, &session.plan)? {
        return wrong(alloc);
    }
    answer_move(alloc, &session.given, &session.plan, asked, reads)
}

/// The answer about a descent of the plan: where it ends, or how many candidates it tries.
fn about_descent<R: Threads + Sync>(
    rt: &R,
    alloc: Global,
    session: &Session,
    question: (&str, &str),
    reads: &mut Steps<Reads>,
) -> Result<String, NoMemory> {
    let given = &session.given;
    let Some(order) = order_of(alloc, given, question.1)? else {
        return wrong(alloc);
    };
    if !is_lawful_plan(alloc, given, &session.plan)? {
        return wrong(alloc);
    }
    if question.0 == "tries" {
        return answer_tries(rt, alloc, given, &session.plan, order.as_slice(), reads);
    }
    match answer_descent(rt, alloc, given, &session.plan, order.as_slice(), reads)? {
        Some(answer) => Ok(answer),
        None => wrong(alloc),
    }
}

/// The answer to a question about a problem and its plan.
fn answer_about<R: Threads + Sync>(
    rt: &R,
    alloc: Global,
    session: &mut Session,
    question: (&str, &str),
    reads: &mut Steps<Reads>,
) -> Result<String, NoMemory> {
    match question.0 {
        "sol" => take_plan(alloc, session, question.1),
        "move" => about_move(alloc, session, question.1, reads),
        "descend" | "tries" => about_descent(rt, alloc, session, question, reads),
        _ => wrong(alloc),
    }
}

/// The answer to a question. A problem is kept for the questions that follow.
fn answer_of<R: Threads + Sync, F: Files>(
    rt: &R,
    alloc: Global,
    session: &mut Option<Session>,
    question: &str,
    files: &mut F,
    reads: &mut Steps<Reads>,
) -> Result<String, NoMemory> {
    let Some(parts) = question.split_once(' ') else {
        return wrong(alloc);
    };
    if parts.0 == "instance" {
        *session = Session::of_file(alloc, files, parts.1)?;
        return Ok(String::new(alloc));
    }
    match session {
        Some(session) => answer_about(rt, alloc, session, parts, reads),
        None => wrong(alloc),
    }
}

/// The answers to questions, one a line:
///
/// - `instance FILE`: the file whose problem the following questions are about;
/// - `sol LISTS`: the plan that they are about: for each vehicle its visits, lists separated by `;`, a reload as `|DEPOT`;
/// - `move KIND CLIENT after CLIENT`, `move KIND CLIENT start CLIENT`, `move KIND CLIENT empty TYPE`, `move KIND CLIENT solo`,
///   `move KIND routes VEHICLE VEHICLE`: the gain of a move, where it lowers the cost, and the lists that it makes; kinds are counted
///   from 1, types and vehicles from 0;
/// - `descend CLIENTS`: the lists that the descent in an order of the clients ends with, their cost, the passes that a plain descent
///   takes to the same lists, and the moves taken of each kind;
/// - `tries CLIENTS`: how many candidates the descent in an order of the clients tries.
///
/// An instance has no answer. What can't be answered is answered `wrong`, and so is a descent that ends with other lists than a plain
/// one. Refused only where memory runs out.
pub fn answers_of<R: Threads + Sync, F: Files>(
    rt: &R,
    alloc: Global,
    questions: &[u8],
    files: &mut F,
) -> Result<String, NoMemory> {
    let Ok(questions) = str::from_utf8(questions) else {
        return wrong(alloc);
    };
    let mut answers = String::new(alloc);
    let mut session = None;
    let mut reads = Steps::new(rt);
    for question in questions.lines() {
        let answer = answer_of(rt, alloc, &mut session, question, files, &mut reads)?;
        answers.push_str(answer.as_str())?;
    }
    Ok(answers)
}
