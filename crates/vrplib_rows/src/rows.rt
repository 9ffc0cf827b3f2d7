//! The rows of a section.
ghost use Rattle.std.specs.Prelude.{◌≡◌, ◌+◌, ◌-◌, ◌^◌, ◌<◌, ◌≤◌, true, not, [], ◌∷◌, ◌++◌, All, IfOk, IfSome, OnOk, OnErr, Ok, Some, None, flat_map, length, slice_get, slice_index, slice_range};
ghost use Rattle.problem_data.specs.Limits.{most_places, most_vehicles};
ghost use Rattle.vrplib_model.specs.Checks.{broken_if, first_of};
ghost use Rattle.vrplib_rows.specs.inside.RowTables.{EndInOrder, rows_cut};
ghost use Rattle.vrplib_model.specs.inside.FaultlessRows.{IsRow};
ghost use Rattle.vrplib_rows.specs.KeptRows.{Listed, first_naming};
ghost use Rattle.vrplib_model.specs.Lines.{tokens};
ghost use Rattle.vrplib_rows.specs.inside.NextRows.{Follows};
ghost use Rattle.vrplib_model.specs.RowFaults.{excess, fault_of_row, has_right_length};
ghost use Rattle.vrplib_model.specs.Rows.{row_numbers, vehicle_count};
ghost use Rattle.vrplib_model.specs.declared.section.Section.TheVariants.{VehicleTypes as vehicle_types_section};

use crate::long_row::long_fault;
use crate::marks::Marks;
use crate::next_row::NextRow;
use crate::owners::own;
use crate::row_checks::numbers_fault;
use crate::row_nodes::{name_nodes, number_at};
use crate::row_numbers::read_numbers;
use crate::row_shape::{Counts, excess, has_right_length};
use crate::tokens::token_count;
use problem_data::MOST_VEHICLES;
use std::alloc::{AllocError, Global};
use std::marker::Model;
use vrp_num::Rounding;
use vrplib_model::{Rule, Section};

/// The rows of a section, one after the other, and for each node the first row that names it.
#[derive(Drop)]
pub struct Rows {
    section: Section,
    nodes: u32,
    numbers: Vec<i64>,
    /// Where each row ends among the numbers.
    ends: Vec<usize>,
    /// By node, the number from 1 of the first row that names it, or 0.
    owners: Vec<u32>,
    /// The numbers of the row that is read.
    row: Vec<i64>,
    /// The nodes that the row names.
    named: Vec<u64>,
    /// A mark for each node.
    marks: Marks,
}

impl Model for Rows {
    ghost use Rattle.vrplib_rows.specs.KeptRows.{Listed};
    ghost use Rattle.vrplib_rows.specs.inside.RowTables.{IsKeptAs, rows_cut};

    ghost Value = { Listed };

    ghost view = { λ r. record { section = r.section; nodes = r.nodes; rows = rows_cut 0 r.ends.items r.numbers.items } };

    ghost invariant = { λ r. IsKeptAs r.section r.nodes r.numbers.items r.ends.items r.owners.items r.marks };
}

impl Rows {
    /// No rows yet, of a text with so many nodes.
    pub fn new(alloc: Global, section: Section, nodes: u32) -> Result<Rows, AllocError>
        requires { nodes ≤ most_places }
        ensures { IfOk result (λ made. made ≡ record { section = section; nodes = nodes; rows = [] }) }
    {
        let places = nodes as usize + 1;
        Ok(Rows {
            section,
            nodes,
            numbers: Vec::new(alloc),
            ends: Vec::new(alloc),
            owners: vec![in alloc; 0; places]?,
            row: Vec::new(alloc),
            named: Vec::new(alloc),
            marks: Marks::new(alloc, places)?,
        })
    }

    /// The section.
    pub fn section(&self) -> Section
        ensures { result ≡ self.now.section }
    {
        self.section
    }

    /// How many nodes the text has.
    pub fn nodes(&self) -> u32
        ensures number { result ≡ self.now.nodes }
        ensures limit { result ≤ most_places }
    {
        self.nodes
    }

    /// How many rows there are.
    pub fn count(&self) -> usize
        ensures number { result ≡ length self.now.rows }
        ensures limit { self.now.nodes ≤ most_places }
        ensures bounds { All (IsRow self.now.section self.now.nodes) self.now.rows }
    {
        self.ends.len()
    }

    /// The k-th row, from 0.
    pub fn row(&self, k: usize) -> &[i64]
        requires { k < length self.now.rows }
        ensures row { slice_get self.now.rows k ≡ Some result.now }
        ensures bounds { IsRow self.now.section self.now.nodes result.now }
    {
        cut(&self.numbers, &self.ends, k)
    }

    /// The numbers of all rows.
    pub fn numbers(&self) -> &[i64]
        ensures all { result.now ≡ flat_map (λ row. row) self.now.rows }
        ensures bounds { All (IsRow self.now.section self.now.nodes) self.now.rows }
    {
        self.numbers.as_slice()
    }

    /// The first row that names a node, from 0.
    pub fn row_of(&self, node: u32) -> Option<usize>
        requires { node ≤ self.now.nodes }
        ensures first { result ≡ first_naming self.now node }
        ensures fits { IfSome result (λ k. k < 2 ^ 32) }
        ensures bounds { All (IsRow self.now.section self.now.nodes) self.now.rows }
    {
        match self.owners[node as usize] {
            0 => None,
            number => Some(number as usize - 1),
        }
    }

    /// The first fault of a row of the section; a faultless row is added. A text has so many weights.
    pub fn read_row(
        &mut self,
        mode: Rounding,
        weights: u64,
        line: &[u8],
    ) -> Result<Option<Rule>, AllocError>
        ensures fault { IfOk result (λ fault. fault ≡ fault_of_row mode self.old.section (tokens line.now) self.old.nodes weights self.old.rows) }
        ensures taken { result ≡ Ok None → self.new ≡ record self.old { rows = self.old.rows ++ row_numbers mode self.old.section self.old.rows (tokens line.now) ∷ [] } }
        ensures kept { (self.new.section ≡ self.old.section) × (self.new.nodes ≡ self.old.nodes) }
    {
        let count = token_count(line);
        if let Some(rule) = self.shape_fault(weights, line, count) {
            return Ok(Some(rule));
        }
        let next = self.next_row();
        if let Some(rule) = long_fault(mode, next, self.nodes, line, count) {
            return Ok(Some(rule));
        }
        if let Some(rule) = read_numbers(mode, next, line, &mut self.row)? {
            return Ok(Some(rule));
        }
        name_nodes(next.section, &self.row, &mut self.named)?;
        let fault = numbers_fault(
            next,
            self.nodes,
            &self.row,
            &self.named,
            &self.owners,
            &mut self.marks,
        );
        if fault.is_some() {
            return Ok(fault);
        }
        // no memory holds so many rows
        let Ok(number) = u32::try_from(next.number) else {
            return Err(AllocError);
        };
        append_row(&mut self.numbers, &mut self.ends, &self.row)?;
        own(&mut self.owners, &self.named, number);
        Ok(None)
    }

    /// The rule that one row more breaks by its number of tokens, or because it is one too many.
    fn shape_fault(&self, weights: u64, line: &[u8], count: usize) -> Option<Rule>
        requires { count ≡ length (tokens line.now) }
        ensures fault { result ≡ first_of (broken_if (not (has_right_length self.now.section (tokens line.now))) Rule.RowCount
            ∷ excess self.now.section (tokens line.now) self.now.nodes weights self.now.rows ∷ []) }
        ensures length { result ≡ None → has_right_length self.now.section (tokens line.now) ≡ true }
    {
        if !has_right_length(self.section, line, count) {
            return Some(Rule::RowCount);
        }
        let counts = Counts {
            rows: self.count(),
            numbers: self.numbers().len(),
            nodes: self.nodes,
            weights,
        };
        excess(self.section, count, counts)
    }

    /// The row that comes next.
    fn next_row(&self) -> NextRow
        ensures section { result.section ≡ self.now.section }
        ensures follows { Follows result self.now.rows }
    {
        NextRow {
            section: self.section,
            number: self.ends.len() as u64 + 1,
            vehicles_left: self.vehicles_left(),
        }
    }

    /// How many vehicles the types leave, in a section of vehicle types.
    fn vehicles_left(&self) -> u64
        ensures { self.now.section ≡ vehicle_types_section → result ≡ most_vehicles - vehicle_count self.now.rows }
    {
        match self.section {
            Section::VehicleTypes => self.without_vehicles(u64::from(MOST_VEHICLES)),
            _ => 0,
        }
    }

    /// What is left of a number without the counts of the vehicle types.
    fn without_vehicles(&self, most: u64) -> u64
        ensures { result ≡ most - vehicle_count self.now.rows }
    {
        let mut left = most;
        for k in 0..self.count() {
            left = left.saturating_sub(number_at(self.row(k), 1));
        }
        left
    }
}

/// Where the k-th row begins.
fn start_of(ends: &[usize], k: usize) -> usize
    requires { k < length ends.now }
    ensures { result ≡ slice_index (0 ∷ ends.now) k }
{
    if k == 0 { 0 } else { ends[k - 1] }
}

/// The k-th row of the numbers.
fn cut<'a>(numbers: &'a [i64], ends: &[usize], k: usize) -> &'a [i64]
    requires within { k < length ends.now }
    requires ordered { EndInOrder 0 ends.now (length numbers.now) }
    ensures { slice_get (rows_cut 0 ends.now numbers.now) k ≡ Some result.now }
{
    part(numbers, start_of(ends, k), ends[k])
}

/// The numbers from one place up to another.
fn part(numbers: &[i64], start: usize, end: usize) -> &[i64]
    requires order { start ≤ end }
    requires within { end ≤ length numbers.now }
    ensures { result.now ≡ slice_range numbers.now start end }
{
    &numbers[start..end]
}

/// Appends a row; where memory runs out, all stays as it was.
fn append_row(numbers: &mut Vec<i64>, ends: &mut Vec<usize>, row: &[i64]) -> Result<(), AllocError>
    ensures taken { OnOk result ((numbers.new.items ≡ numbers.old.items ++ row.now)
        × (ends.new.items ≡ ends.old.items ++ (length numbers.old.items + length row.now) ∷ [])) }
    ensures kept { OnErr result ((numbers.new.items ≡ numbers.old.items) × (ends.new.items ≡ ends.old.items)) }
{
    ends.push(numbers.len() + row.len())?;
    let appended = numbers.extend_from_slice(row);
    if appended.is_err() {
        ends.pop();
    }
    appended
}
