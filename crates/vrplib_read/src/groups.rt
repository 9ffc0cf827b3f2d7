//! The groups of clients of which one is visited.
ghost use Rattle.std.specs.Prelude.{◌≡◌, ◌≤◌, ◌==◌, All, IfOk, drop, length, map, nat_abs, position};
ghost use Rattle.std.specs.List.{list_any};
ghost use Rattle.problem_data.specs.Limits.{most_places};
ghost use Rattle.vrplib_model.specs.Rows.{nodes_of};
ghost use Rattle.vrplib_model.specs.Entries.{place_of};
ghost use Rattle.vrplib_model.specs.inside.FaultlessRows.{IsBetween};
ghost use Rattle.vrplib_model.specs.Meaning.{groups, group_of};
ghost use Rattle.vrplib_read.specs.inside.OfText.{OfText, known_nodes, group_places};

use crate::reading::Reading;
use problem_data::PlaceList;
use std::alloc::{AllocError, Global};
use vrplib_model::Section;
use vrplib_rows::Rows;

/// The places of nodes.
pub(crate) fn places_of(alloc: Global, nodes: &[i64]) -> Result<Vec<u32>, AllocError>
    requires { All (IsBetween 1 most_places) nodes.now }
    ensures { IfOk result (λ places. places.items ≡ map place_of (nodes_of nodes.now)) }
{
    let mut places = Vec::with_capacity(alloc, nodes.len())?;
    for node in nodes {
        places.push(place_of(*node))?;
    }
    Ok(places)
}

/// The place of a node.
fn place_of(node: i64) -> u32
    requires { IsBetween 1 most_places node }
    ensures { result ≡ place_of (nat_abs node) }
{
    (node - 1) as u32
}

/// The places that a row of a group names.
fn group_places(alloc: Global, row: &[i64]) -> Result<PlaceList, AllocError>
    requires some { 1 ≤ length row.now }
    requires bounds { All (IsBetween 1 most_places) (drop 1 row.now) }
    ensures { IfOk result (λ places. places ≡ group_places row.now) }
{
    Ok(PlaceList::from_vec(places_of(alloc, &row[1..])?))
}

/// The groups in rows of groups.
fn groups_in(alloc: Global, rows: &Rows) -> Result<Vec<PlaceList>, AllocError>
    requires { rows.now.section ≡ Section.Group }
    ensures { IfOk result (λ groups. groups.items ≡ map group_places rows.now.rows) }
{
    let count = rows.count();
    let mut groups = Vec::with_capacity(alloc, count)?;
    for k in 0..count {
        groups.push(group_places(alloc, rows.row(k))?)?;
    }
    Ok(groups)
}

/// The groups, each a list of places.
pub(crate) fn groups(alloc: Global, reading: &Reading) -> Result<Vec<PlaceList>, AllocError>
    ensures { IfOk result (λ made. OfText reading.now (λ all. made.items ≡ groups reading.now.mode all)) }
{
    match reading.rows_of(Section::Group) {
        Some(rows) => groups_in(alloc, rows),
        None => Ok(Vec::new(alloc)),
    }
}

/// The first group of a node among rows of groups, from 0.
fn group_in(rows: &Rows, node: u32) -> Option<u32>
    requires kind { rows.now.section ≡ Section.Group }
    requires least { 1 ≤ node }
    requires most { node ≤ rows.now.nodes }
    ensures { result ≡ position (λ places. list_any (λ place. place == place_of node) places) (map group_places rows.now.rows) }
{
    match rows.row_of(node) {
        Some(k) => Some(k as u32),
        None => None,
    }
}

/// The number of a node's group, from 0.
pub(crate) fn group_of(reading: &Reading, node: u32) -> Option<u32>
    requires least { 1 ≤ node }
    requires most { node ≤ known_nodes reading.now }
    ensures { OfText reading.now (λ all. result ≡ group_of reading.now.mode all node) }
{
    match reading.rows_of(Section::Group) {
        Some(rows) => group_in(rows, node),
        None => None,
    }
}
