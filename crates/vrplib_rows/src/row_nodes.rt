//! The nodes that a row names.
ghost use Rattle.std.specs.Prelude.{◌≡◌, [], ◌∷◌, ◌++◌, OnOk, drop};
ghost use Rattle.std.specs.Option.{option_to_list};
ghost use Rattle.vrplib_model.specs.Numbers.{number_at};
ghost use Rattle.vrplib_model.specs.RowFaults.{nodes_named};
ghost use Rattle.vrplib_model.specs.Rows.{nodes_of};

use std::alloc::AllocError;
use vrplib_model::Section;

/// The k-th number of a row, from 0, without its sign.
pub(crate) fn number_at(row: &[i64], k: usize) -> u64
    ensures { result ≡ number_at k row.now }
{
    if k < row.len() {
        row[k].unsigned_abs()
    } else {
        0
    }
}

/// What a row has behind its first numbers.
pub(crate) fn behind(row: &[i64], first: usize) -> &[i64]
    ensures { result.now ≡ drop first row.now }
{
    &row[first.min(row.len())..]
}

/// The node that a number names, if it isn't negative.
pub(crate) fn node_of(number: i64) -> Option<u64>
    ensures { option_to_list result ≡ nodes_of (number ∷ []) }
{
    if number >= 0 {
        Some(number as u64)
    } else {
        None
    }
}

/// Adds the node that a number names.
fn add_node(named: &mut Vec<u64>, number: i64) -> Result<(), AllocError>
    ensures { OnOk result (named.new.items ≡ named.old.items ++ nodes_of (number ∷ [])) }
{
    if let Some(node) = node_of(number) {
        named.push(node)?;
    }
    Ok(())
}

/// Adds the nodes among the numbers to those that are named.
fn add_nodes(named: &mut Vec<u64>, numbers: &[i64]) -> Result<(), AllocError>
    ensures { OnOk result (named.new.items ≡ named.old.items ++ nodes_of numbers.now) }
{
    for number in numbers {
        add_node(named, *number)?;
    }
    Ok(())
}

/// The nodes that a row of the section names.
pub(crate) fn name_nodes(
    section: Section,
    row: &[i64],
    named: &mut Vec<u64>,
) -> Result<(), AllocError>
    ensures { OnOk result (named.new.items ≡ nodes_named section row.now) }
{
    named.clear();
    match section {
        Section::EdgeWeight | Section::Profile => Ok(()),
        Section::Depot => add_nodes(named, row),
        Section::Group => add_nodes(named, behind(row, 1)),
        Section::VehicleTypes => name_depots(row, named),
        Section::NodeCoord
        | Section::Demand
        | Section::Backhaul
        | Section::TimeWindow
        | Section::ServiceTime
        | Section::ReleaseTime
        | Section::Prize => Ok(named.push(number_at(row, 0))?),
    }
}

/// The start, the end and the reload depots in the row of a vehicle type.
fn name_depots(row: &[i64], named: &mut Vec<u64>) -> Result<(), AllocError>
    ensures { OnOk result (named.new.items ≡ named.old.items ++ number_at 3 row.now ∷ number_at 4 row.now ∷ nodes_of (drop 14 row.now)) }
{
    named.push(number_at(row, 3))?;
    named.push(number_at(row, 4))?;
    add_nodes(named, behind(row, 14))
}
