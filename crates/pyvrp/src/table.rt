//! The lines that the command prints: a table with a row for each instance, and fault lines.
ghost use Rattle.std.specs.Prelude.{◌≡◌, ◌++◌, IfOk, OnOk, string_bytes};
ghost use Rattle.command_model.specs.Outcomes.{program};
ghost use Rattle.vrp_texts.specs.FaultLines.{key_text, long_line, refused_line, unread_line};
ghost use Rattle.vrp_texts.specs.Tables.{count_line, found_row, header, none_row, refused_row, table_line};

use std::alloc::{AllocError, Global};
use std::fmt::Write;
use vrplib_read::{Refusal, Rule};

/// A line of the table: the name and the mark to the left of 24 and 2 characters, the cost and the iterations to the right of 20
/// and 10. A longer text stands whole.
pub fn table_line(
    alloc: Global,
    name: &str,
    ok: &str,
    cost: &str,
    iterations: &str,
) -> Result<String, AllocError>
    ensures { IfOk result (λ text. string_bytes text ≡ table_line name.now ok.now cost.now iterations.now) }
{
    format!(in alloc; "{name:<24} {ok:<2} {cost:>20} {iterations:>10}\n")
}

/// The names of the columns.
pub fn header(alloc: Global) -> Result<String, AllocError>
    ensures { IfOk result (λ text. string_bytes text ≡ header) }
{
    table_line(alloc, "Instance", "OK", "Obj.", "Iters. (#)")
}

/// The row of an instance with a feasible plan.
pub fn found_row(
    alloc: Global,
    name: &str,
    cost: i128,
    iterations: u64,
) -> Result<String, AllocError>
    ensures { IfOk result (λ text. string_bytes text ≡ found_row name.now cost iterations) }
{
    let cost = format!(in alloc; "{cost}")?;
    let iterations = format!(in alloc; "{iterations}")?;
    table_line(alloc, name, "Y", cost.as_str(), iterations.as_str())
}

/// The row of an instance without one.
pub fn none_row(alloc: Global, name: &str, iterations: u64) -> Result<String, AllocError>
    ensures { IfOk result (λ text. string_bytes text ≡ none_row name.now iterations) }
{
    let iterations = format!(in alloc; "{iterations}")?;
    table_line(alloc, name, "N", "inf", iterations.as_str())
}

/// The row of an instance that wasn't read.
pub fn refused_row(alloc: Global, name: &str) -> Result<String, AllocError>
    ensures { IfOk result (λ text. string_bytes text ≡ refused_row name.now) }
{
    table_line(alloc, name, "R", "-", "0")
}

/// The last line: how many of all instances have a feasible plan.
pub fn count_line(alloc: Global, feasible: usize, all: usize) -> Result<String, AllocError>
    ensures { IfOk result (λ text. string_bytes text ≡ count_line feasible all) }
{
    format!(in alloc; "Feasible: {feasible} of {all}\n")
}

/// The line of an instance that could not be loaded.
pub fn unread_line(alloc: Global, name: &str) -> Result<String, AllocError>
    ensures { IfOk result (λ text. string_bytes text ≡ unread_line program name.now) }
{
    format!(in alloc; "pyvrp: {name}: cannot be read\n")
}

/// The line of an instance that is too long.
pub fn long_line(alloc: Global, name: &str) -> Result<String, AllocError>
    ensures { IfOk result (λ text. string_bytes text ≡ long_line program name.now) }
{
    format!(in alloc; "pyvrp: {name}: too long\n")
}

/// Adds the missing key, after a space, where the rule names one.
fn push_key(text: &mut String, rule: &Rule) -> Result<(), AllocError>
    ensures { OnOk result (string_bytes text.new ≡ string_bytes text.old ++ key_text rule.now) }
{
    match rule {
        Rule::Missing(key) => {
            let key = key.name();
            write!(text, " {key}")
        }
        _ => Ok(()),
    }
}

/// The line of an instance whose text is refused: the faulty line's number, and the number and name of the rule that it breaks.
pub fn refused_line(alloc: Global, name: &str, refusal: &Refusal) -> Result<String, AllocError>
    ensures { IfOk result (λ text. string_bytes text ≡ refused_line program name.now refusal.now) }
{
    let line = refusal.line;
    let number = refusal.rule.number();
    let rule = refusal.rule.name();
    let mut text = format!(in alloc; "pyvrp: {name}: line {line}: rule {number} {rule}")?;
    push_key(&mut text, &refusal.rule)?;
    text.push('\n')?;
    Ok(text)
}
