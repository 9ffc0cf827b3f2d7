//! Rows that name more nodes than there are: their numbers are not kept.
ghost use Rattle.std.specs.Prelude.{◌≡◌, ℕ, ◌+◌, ◌-◌, ◌^◌, ◌<◌, ◌≤◌, ◌||◌, true, if◌then◌else◌, List, [], ◌∷◌, ◌++◌, ℤ, Some, None, IfSome, MatchResult, length};
ghost use Rattle.vrplib_model.specs.Checks.{has_node_outside};
ghost use Rattle.vrplib_model.specs.Lines.{tokens};
ghost use Rattle.vrplib_rows.specs.inside.LongRows.{AreHead, IsKeptOf, IsTail, nodes_from};
ghost use Rattle.vrplib_rows.specs.inside.NextRows.{Follows, later_fault, numbers_fault, token_fault};
ghost use Rattle.vrplib_model.specs.Numbers.{number_at};
ghost use Rattle.vrplib_model.specs.RowFaults.{has_empty_window, has_right_length};
ghost use Rattle.vrplib_model.specs.Rows.{nodes_of};
ghost use Rattle.vrplib_model.specs.declared.section.Section.TheVariants.{VehicleTypes as vehicle_types_section};

use crate::next_row::NextRow;
use crate::numbers::field_value;
use crate::row_checks::{has_empty_window, has_node_outside};
use crate::row_nodes::{node_of, number_at};
use crate::tokens::next_token;
use vrp_num::Rounding;
use vrplib_model::{Rule, Section};

/// How many numbers at most stand before the nodes of a row.
const HEAD: usize = 14;

/// The nodes at the end of a row.
#[derive(Clone, Copy)]
pub(crate) struct Tail {
    /// How many there are.
    pub count: usize,
    /// Whether one of them doesn't exist.
    pub outside: bool,
}

/// What is kept of a long row.
#[derive(Clone, Copy)]
struct LongRow {
    head: [i64; HEAD],
    tail: Tail,
}

/// Where the nodes begin that end a row of the section, in sections whose rows name any number of them.
fn nodes_from(section: Section) -> Option<usize>
    ensures { result ≡ nodes_from section }
{
    match section {
        Section::Depot => Some(0),
        Section::Group => Some(1),
        Section::VehicleTypes => Some(14),
        _ => None,
    }
}

/// Keeps the k-th number of a row, if it stands in its head.
fn keep_number(head: &mut [i64], k: usize, number: i64)
    ensures { (row : List ℤ) → length row ≡ k → AreHead head.old row → AreHead head.new (row ++ number ∷ []) }
{
    if k < head.len() {
        head[k] = number;
    }
}

impl Tail {
    /// One number more.
    fn with(self, nodes: u32, number: i64) -> Tail
        requires { self.count < 2 ^ 64 - 1 }
        ensures count { result.count ≡ self.count + length (nodes_of (number ∷ [])) }
        ensures outside { result.outside ≡ (self.outside || has_node_outside nodes (nodes_of (number ∷ []))) }
    {
        match node_of(number) {
            None => self,
            Some(node) => Tail {
                count: self.count + 1,
                outside: self.outside || has_node_outside(nodes, &[node]),
            },
        }
    }
}

impl LongRow {
    /// Nothing is kept yet.
    fn new() -> LongRow
        ensures head { AreHead result.head [] }
        ensures tail { (first n : ℕ) → IsTail first n [] result.tail }
        ensures count { result.tail.count ≡ 0 }
    {
        LongRow {
            head: [0; HEAD],
            tail: Tail {
                count: 0,
                outside: false,
            },
        }
    }

    /// One number more of a row whose nodes begin at the first place.
    fn take(&mut self, first: usize, nodes: u32, k: usize, number: i64)
        requires { self.old.tail.count < 2 ^ 64 - 1 }
        ensures head { (row : List ℤ) → length row ≡ k → AreHead self.old.head row → AreHead self.new.head (row ++ number ∷ []) }
        ensures tail { (row : List ℤ) → length row ≡ k → IsTail first nodes row self.old.tail → IsTail first nodes (row ++ number ∷ []) self.new.tail }
        ensures count { self.new.tail.count ≤ self.old.tail.count + 1 }
    {
        keep_number(&mut self.head, k, number);
        if first <= k {
            self.tail = self.tail.with(nodes, number);
        }
    }

    /// The rule that the row breaks as one of the section, if it names more nodes than there are or one that doesn't exist.
    fn fault(&self, section: Section, nodes: u32, first: usize) -> Option<Rule>
        requires { nodes_from section ≡ Some first }
        ensures { IfSome result (λ rule. (row : List ℤ) (rows : List (List ℤ)) → AreHead self.now.head row → IsTail first nodes row self.now.tail
            → Some rule ≡ numbers_fault nodes section row rows) }
    {
        if self.tail.outside {
            return Some(Rule::BadNode);
        }
        if self.tail.count <= nodes as usize + 1 {
            return None;
        }
        match section {
            Section::Depot => Some(Rule::BadNode),
            Section::Group => Some(Rule::BadGroup),
            Section::VehicleTypes => Some(self.type_fault(nodes)),
            _ => None,
        }
    }

    /// The rule that the row of a vehicle type breaks where a reload depot comes twice.
    fn type_fault(&self, nodes: u32) -> Rule
        ensures { result ≡ (if has_node_outside nodes (number_at 3 self.now.head ∷ number_at 4 self.now.head ∷ []) then Rule.BadNode
            else (if has_empty_window vehicle_types_section self.now.head then Rule.EmptyWindow else Rule.BadVehicle)) }
    {
        let ends = [number_at(&self.head, 3), number_at(&self.head, 4)];
        if has_node_outside(nodes, &ends) {
            Rule::BadNode
        } else if has_empty_window(Section::VehicleTypes, &self.head) {
            Rule::EmptyWindow
        } else {
            Rule::BadVehicle
        }
    }
}

/// Reads the tokens of a line as the numbers of a long row, or gives the first rule that one of them breaks.
fn read_long(
    mode: Rounding,
    next: NextRow,
    first: usize,
    nodes: u32,
    line: &[u8],
    count: usize,
) -> Result<LongRow, Rule>
    requires shape { has_right_length next.section (tokens line.now) ≡ true }
    requires count { count ≡ length (tokens line.now) }
    ensures { MatchResult result
        (λ kept. (rows : List (List ℤ)) → Follows next rows → IsKeptOf mode next.section rows (tokens line.now) first nodes kept.head kept.tail)
        (λ rule. (rows : List (List ℤ)) → Follows next rows → Some rule ≡ token_fault mode next.section (tokens line.now) rows) }
{
    let mut kept = LongRow::new();
    let mut rest = line;
    let mut k = 0;
    while let Some((token, after)) = next_token(rest) {
        match field_value(mode, next.field(k), token) {
            Ok(number) => kept.take(first, nodes, k, number),
            Err(rule) => return Err(rule),
        }
        rest = after;
        k += 1;
    }
    Ok(kept)
}

/// The fault of a row of so many tokens, if these are too many to keep their numbers.
pub(crate) fn long_fault(
    mode: Rounding,
    next: NextRow,
    nodes: u32,
    line: &[u8],
    count: usize,
) -> Option<Rule>
    requires shape { has_right_length next.section (tokens line.now) ≡ true }
    requires count { count ≡ length (tokens line.now) }
    ensures { IfSome result (λ rule. (rows : List (List ℤ)) → Follows next rows
        → Some rule ≡ later_fault mode next.section (tokens line.now) nodes rows) }
{
    let first = nodes_from(next.section)?;
    if count <= nodes as usize + HEAD + 1 {
        return None;
    }
    match read_long(mode, next, first, nodes, line, count) {
        Ok(kept) => kept.fault(next.section, nodes, first),
        Err(rule) => Some(rule),
    }
}
