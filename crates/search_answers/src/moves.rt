//! Questions about moves.
ghost use Rattle.std.specs.Prelude.{IsTrue};
ghost use Rattle.routing_model.specs.Lawful.{is_lawful};

use crate::gains::gain_of;
use move_core::{Candidate, Kind, Search, Target};
use plan_texts::push_plan;
use problem_data::{NoMemory, ProblemData, Reads, Solution, Steps};
use routing_model::Weights;
use std::alloc::Global;
use std::fmt::Write;
use std::str::Split;

/// The weights of all questions.
pub(crate) const WEIGHTS: Weights = Weights {
    load: 20,
    warp: 6,
    distance: 6,
};

/// The kind of a number, from 1.
fn kind_of(number: &str) -> Option<Kind> {
    match number {
        "1" => Some(Kind::Exchange10),
        "2" => Some(Kind::Exchange20),
        "3" => Some(Kind::Exchange30),
        "4" => Some(Kind::Exchange11),
        "5" => Some(Kind::Exchange21),
        "6" => Some(Kind::Exchange31),
        "7" => Some(Kind::Exchange22),
        "8" => Some(Kind::Exchange32),
        "9" => Some(Kind::Exchange33),
        "10" => Some(Kind::SwapTails),
        "11" => Some(Kind::DepotBefore),
        "12" => Some(Kind::DepotAfter),
        "13" => Some(Kind::RemoveDepot),
        "14" => Some(Kind::Insert),
        "15" => Some(Kind::Remove),
        "16" => Some(Kind::Replace),
        "17" => Some(Kind::SwapRoutes),
        "18" => Some(Kind::SwapStar),
        _ => None,
    }
}

/// The number that the next word names.
fn number_of(words: &mut Split<'_, char>) -> Option<u32> {
    words.next()?.parse::<u32>().ok()
}

/// The move that a text names.
pub(crate) fn move_of(text: &str) -> Option<Candidate> {
    let mut words = text.split(' ');
    let kind = kind_of(words.next()?)?;
    let first = words.next()?;
    if first == "routes" {
        return Some(Candidate::Routes {
            kind,
            first: number_of(&mut words)?,
            second: number_of(&mut words)?,
        });
    }
    let client = first.parse::<u32>().ok()?;
    let target = match words.next()? {
        "solo" => return Some(Candidate::Solo { kind, client }),
        "after" => Target::After(number_of(&mut words)?),
        "start" => Target::StartOf(number_of(&mut words)?),
        "empty" => Target::Empty(number_of(&mut words)?),
        _ => return None,
    };
    Some(Candidate::Node {
        kind,
        client,
        target,
    })
}

/// The gain of a move and the lists that it makes, or `none`. Condition: the plan is lawful.
pub(crate) fn answer_move(
    alloc: Global,
    given: &ProblemData,
    plan: &Solution,
    asked: Candidate,
    reads: &mut Steps<Reads>,
) -> Result<String, NoMemory>
    requires { IsTrue (is_lawful given.now plan.now.routes) }
{
    let mut search = Search::new(alloc, given, plan, WEIGHTS, reads)?;
    let Some(gain) = gain_of(alloc, &search, asked, reads)? else {
        return Ok(String::from_str(alloc, "none\n")?);
    };
    let amount = gain.amount();
    search.apply(gain, reads)?;
    let mut text = format!(in alloc; "diff {amount} lists ")?;
    push_plan(&mut text, &search.solution()?)?;
    text.push('\n')?;
    Ok(text)
}
