//! Whether a section can have another row, and one of so many tokens.
ghost use Rattle.std.specs.Prelude.{◌≡◌, ℕ, ◌+◌, nat_lt, List, ℤ, length, flat_map};
ghost use Rattle.vrplib_model.specs.Checks.{broken_if};
ghost use Rattle.vrplib_model.specs.Lines.{tokens};
ghost use Rattle.vrplib_model.specs.RowFaults.{excess, goes_on_after_end, has_right_length};

use crate::numbers::is_minus_one_token;
use crate::tokens::next_token;
use problem_data::{MOST_GROUPS, MOST_PROFILES, MOST_TYPES};
use vrplib_model::{Rule, Section};

/// How many rows a section has, how many numbers these have, and how many nodes and weights the text has.
#[derive(Clone, Copy)]
pub(crate) struct Counts {
    pub rows: usize,
    pub numbers: usize,
    pub nodes: u32,
    pub weights: u64,
}

/// Whether a -1 has a further token behind it.
fn goes_on_after_end(line: &[u8]) -> bool
    ensures { result ≡ goes_on_after_end (tokens line.now) }
{
    let mut rest = line;
    while let Some((token, after)) = next_token(rest) {
        if is_minus_one_token(token) {
            return next_token(after).is_some();
        }
        rest = after;
    }
    false
}

/// Whether a row of the section may have the tokens of the line, which are so many.
pub(crate) fn has_right_length(section: Section, line: &[u8], count: usize) -> bool
    requires { count ≡ length (tokens line.now) }
    ensures { result ≡ has_right_length section (tokens line.now) }
{
    match section {
        Section::EdgeWeight => true,
        Section::Depot => !goes_on_after_end(line),
        Section::Group => count >= 2,
        Section::VehicleTypes => count >= 14,
        Section::NodeCoord | Section::TimeWindow | Section::Profile => count == 3,
        Section::Demand
        | Section::Backhaul
        | Section::ServiceTime
        | Section::ReleaseTime
        | Section::Prize => count == 2,
    }
}

/// The rule, where it is broken.
pub(crate) fn broken_if(broken: bool, rule: Rule) -> Option<Rule>
    ensures { result ≡ broken_if broken rule }
{
    if broken { Some(rule) } else { None }
}

/// The rule that a row more breaks, which has so many tokens.
pub(crate) fn excess(section: Section, count: usize, counts: Counts) -> Option<Rule>
    ensures { (row : List (List ℕ)) (rows : List (List ℤ)) → length row ≡ count → length rows ≡ counts.rows
        → length (flat_map (λ numbers. numbers) rows) ≡ counts.numbers → result ≡ excess section row counts.nodes counts.weights rows }
{
    match section {
        Section::EdgeWeight => broken_if(
            is_above(counts.numbers, count, counts.weights),
            Rule::RowCount,
        ),
        Section::Depot => None,
        Section::Group => broken_if(counts.rows >= MOST_GROUPS as usize, Rule::Limit),
        Section::Profile => broken_if(counts.rows >= MOST_PROFILES as usize, Rule::Limit),
        Section::VehicleTypes => broken_if(counts.rows >= MOST_TYPES as usize, Rule::Limit),
        Section::NodeCoord
        | Section::Demand
        | Section::Backhaul
        | Section::TimeWindow
        | Section::ServiceTime
        | Section::ReleaseTime
        | Section::Prize => broken_if(counts.rows >= counts.nodes as usize, Rule::RowCount),
    }
}

/// Whether two numbers together are above a limit.
fn is_above(a: usize, b: usize, limit: u64) -> bool
    ensures { result ≡ nat_lt limit (a + b) }
{
    let limit = limit as usize;
    a > limit || b > limit - a
}
