//! The answers to all questions.
use crate::plans::{child, drawn_plan, ring, shuffled};
use crate::session::Session;
use batch_run::Files;
use problem_data::{NoMemory, Reads, Steps};
use std::alloc::Global;
use std::str;
use std::thread::Threads;
use vrp_num::Xor128;

/// The answer where there is none.
fn wrong(alloc: Global) -> Result<String, NoMemory> {
    Ok(String::from_str(alloc, "wrong\n")?)
}

/// The answer where something was done, or couldn't be.
fn done(alloc: Global, is_done: bool) -> Result<String, NoMemory> {
    if is_done {
        Ok(String::from_str(alloc, "ok\n")?)
    } else {
        wrong(alloc)
    }
}

/// The answer that there is, or that there is none.
fn answer_or_wrong(alloc: Global, answer: Option<String>) -> Result<String, NoMemory> {
    match answer {
        Some(answer) => Ok(answer),
        None => wrong(alloc),
    }
}

/// Begins with the words of a seed.
fn reseed(session: &mut Session, text: &str) -> bool {
    match text.parse::<u32>() {
        Ok(seed) => {
            session.generator = Xor128::seeded(seed);
            true
        }
        Err(_) => false,
    }
}

/// The answer to a question about a problem and its plans.
fn answer_about(
    alloc: Global,
    session: &mut Session,
    question: (&str, &str),
    reads: &mut Steps<Reads>,
) -> Result<String, NoMemory> {
    match question.0 {
        "seed" => done(alloc, reseed(session, question.1)),
        "sol" => done(alloc, session.take_plan(alloc, question.1)?),
        "swap" => {
            session.swap();
            done(alloc, true)
        }
        "shuffle" => shuffled(alloc, session),
        "random" => drawn_plan(alloc, session),
        "ring" => answer_or_wrong(alloc, ring(alloc, session)?),
        "exchange" => answer_or_wrong(alloc, child(alloc, session, reads)?),
        _ => wrong(alloc),
    }
}

/// The answer to a question. A problem is kept for the questions that follow.
fn answer_of<F: Files>(
    alloc: Global,
    session: &mut Option<Session>,
    question: &str,
    files: &mut F,
    reads: &mut Steps<Reads>,
) -> Result<String, NoMemory> {
    let parts = question.split_once(' ').unwrap_or((question, ""));
    if parts.0 == "instance" {
        *session = Session::of_file(alloc, files, parts.1)?;
        return Ok(String::new(alloc));
    }
    match session {
        Some(session) => answer_about(alloc, session, parts, reads),
        None => wrong(alloc),
    }
}

/// The answers to questions, one a line:
///
/// - `instance FILE`: the file whose problem the following questions are about, with two plans of no visits and a generator of seed 1;
/// - `seed SEED`: the generator begins anew;
/// - `sol LISTS`: the first plan: for each vehicle its visits, lists separated by `;`, a reload as `|DEPOT`;
/// - `swap`: the two plans change places;
/// - `shuffle`: a random order of the clients;
/// - `random`: a random plan, which becomes the first plan;
/// - `ring`: the used vehicles of the first plan, by the direction in which their clients lie;
/// - `exchange`: the child of the two plans, which becomes the first plan, and what it costs.
///
/// An instance has no answer. What can't be answered is answered `wrong`. Refused only where memory runs out.
pub fn answers_of<R: Threads, F: Files>(
    rt: &R,
    alloc: Global,
    questions: &[u8],
    files: &mut F,
) -> Result<String, NoMemory> {
    let Ok(questions) = str::from_utf8(questions) else {
        return wrong(alloc);
    };
    let mut answers = String::new(alloc);
    let mut session = None;
    let mut reads = Steps::new(rt);
    for question in questions.lines() {
        let answer = answer_of(alloc, &mut session, question, files, &mut reads)?;
        answers.push_str(answer.as_str())?;
    }
    Ok(answers)
}
