//! Plans as texts.
use problem_data::{NoMemory, RouteList, Solution, Visit, VisitList};
use std::alloc::{AllocError, Global};
use std::fmt::Write;

/// The visit that a word names.
fn visit_of(word: &str) -> Option<Visit> {
    match word.strip_prefix('|') {
        Some(depot) => match depot.parse::<u32>() {
            Ok(depot) => Some(Visit::Reload(depot)),
            Err(_) => None,
        },
        None => match word.parse::<u32>() {
            Ok(client) => Some(Visit::Client(client)),
            Err(_) => None,
        },
    }
}

/// The visits that a text names.
fn list_of(alloc: Global, text: &str) -> Result<Option<VisitList>, NoMemory> {
    let mut visits = Vec::new(alloc);
    for word in text.split(' ') {
        if word.is_empty() {
            continue;
        }
        let Some(visit) = visit_of(word) else {
            return Ok(None);
        };
        visits.push(visit)?;
    }
    Ok(Some(VisitList::from_vec(visits)))
}

/// The plan of a text: its lists are separated by `;`, a client is its place, and a reload at a depot is `|DEPOT`. Vehicles that it does
/// not name get empty lists. None where a word is no visit. Refused only where memory runs out.
pub fn plan_of(alloc: Global, vehicles: u32, text: &str) -> Result<Option<Solution>, NoMemory> {
    let mut routes = Vec::new(alloc);
    for list in text.split(';') {
        let Some(list) = list_of(alloc, list)? else {
            return Ok(None);
        };
        routes.push(list)?;
    }
    for _ in routes.len()..vehicles as usize {
        routes.push(VisitList::from_vec(Vec::new(alloc)))?;
    }
    Ok(Some(Solution {
        routes: RouteList::from_vec(routes),
    }))
}

/// Appends the visits of a list.
fn push_list(text: &mut String, visits: &[Visit]) -> Result<(), AllocError> {
    for (k, visit) in visits.iter().enumerate() {
        if k > 0 {
            text.push(' ')?;
        }
        match visit {
            Visit::Client(place) => write!(text, "{place}")?,
            Visit::Reload(depot) => write!(text, "|{depot}")?,
        }
    }
    Ok(())
}

/// Appends the lists of a plan, separated by `;`. Refused only where memory runs out.
pub fn push_plan(text: &mut String, plan: &Solution) -> Result<(), AllocError> {
    for (k, list) in plan.routes.items().iter().enumerate() {
        if k > 0 {
            text.push_str(" ; ")?;
        }
        push_list(text, list.items())?;
    }
    Ok(())
}
