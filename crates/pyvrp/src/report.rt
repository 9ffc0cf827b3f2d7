//! The texts and the status that come of an instance.
ghost use Rattle.std.specs.Prelude.{◌≡◌, IfOk, string_bytes};
ghost use Rattle.pyvrp.specs.inside.Report.{TellsErrors, TellsOutput, TellsStatus, count_shown, fault_shown, row_shown, status_shown, text_shown};

use crate::outcome::Instance;
use crate::table::{
    count_line, found_row, header, long_line, none_row, refused_line, refused_row, unread_line,
};
use problem_data::NoMemory;
use std::alloc::{AllocError, Global};

/// The solution text and an empty line, where a solution was found.
fn solution_part(alloc: Global, instance: &Instance) -> Result<Vec<u8>, AllocError>
    ensures { IfOk result (λ text. text.items ≡ text_shown instance.now) }
{
    let mut text = Vec::new(alloc);
    if let Instance::Solved(answer) = instance {
        if answer.cost.is_some() {
            text.extend_from_slice(answer.text.items())?;
            text.push(b'\n')?;
        }
    }
    Ok(text)
}

/// The instance's row in the table.
fn row(alloc: Global, name: &str, instance: &Instance) -> Result<String, AllocError>
    ensures { IfOk result (λ text. string_bytes text ≡ row_shown name.now instance.now) }
{
    match instance {
        Instance::Solved(answer) => match answer.cost {
            Some(cost) => found_row(alloc, name, cost, answer.iterations),
            None => none_row(alloc, name, answer.iterations),
        },
        _ => refused_row(alloc, name),
    }
}

/// How many solutions were found.
fn found_count(instance: &Instance) -> usize
    ensures { result ≡ count_shown instance.now }
{
    match instance {
        Instance::Solved(answer) => answer.cost.is_some() as usize,
        _ => 0,
    }
}

/// The whole output: the solution, where one was found, and the table.
pub fn output_text(alloc: Global, name: &str, instance: &Instance) -> Result<Vec<u8>, NoMemory>
    ensures { IfOk result (λ text. TellsOutput name.now instance.now text.items) }
{
    let mut text = solution_part(alloc, instance)?;
    text.extend_from_slice(header(alloc)?.as_bytes())?;
    text.extend_from_slice(row(alloc, name, instance)?.as_bytes())?;
    text.extend_from_slice(count_line(alloc, found_count(instance), 1)?.as_bytes())?;
    Ok(text)
}

/// The line of the instance's fault, where it has one.
pub fn error_text(alloc: Global, name: &str, instance: &Instance) -> Result<String, AllocError>
    ensures { IfOk result (λ text. TellsErrors name.now instance.now (string_bytes text)) }
{
    match instance {
        Instance::Unreadable => unread_line(alloc, name),
        Instance::Oversized => long_line(alloc, name),
        Instance::Refused(refusal) => refused_line(alloc, name, refusal),
        Instance::Solved(_) => Ok(String::new(alloc)),
    }
}

/// The status: 0 where the instance was read, and else 1.
pub fn status_of(instance: &Instance) -> u8
    ensures { TellsStatus instance.now result }
{
    match instance {
        Instance::Solved(_) => 0,
        _ => 1,
    }
}
