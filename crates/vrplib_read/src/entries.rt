//! What a text says of each node: the entry in the row of that node, in the section that gives it.
ghost use Rattle.std.specs.Prelude.{◌≡◌, ◌==◌, ◌≤◌, ◌+◌, ◌-◌, ◌<◌, All, IfOk, IfSome, IsTrue, find, length, map, pos};
ghost use Rattle.std.specs.Option.{option_copied, option_map_or};
ghost use Rattle.indexmap.specs.IndexMap.{get};
ghost use Rattle.problem_data.specs.Limits.{most_places};
ghost use Rattle.problem_data.specs.Valid.{IsValidPlace};
ghost use Rattle.vrplib_model.specs.Sections.{is_by_node, same_section};
ghost use Rattle.vrplib_model.specs.Numbers.{int_at, number_at};
ghost use Rattle.vrplib_model.specs.Entries.{entry, coordinates, counted, nodes, window, client_service};
ghost use Rattle.vrplib_model.specs.inside.FaultlessRows.{IsRow};
ghost use Rattle.vrplib_model.specs.Meaning.{client, depot};
ghost use Rattle.vrplib_model.specs.WholeText.{is_client_like};
ghost use Rattle.vrplib_read.specs.inside.OfText.{OfText, known_nodes};

use crate::groups::group_of;
use crate::reading::Reading;
use problem_data::{Client, Depot, LARGEST, Place, Window};
use std::alloc::{AllocError, Global};
use vrplib_model::Section;
use vrplib_rows::Rows;

/// How many nodes the text has, or 0 where it doesn't say.
pub(crate) fn node_count(reading: &Reading) -> u32
    ensures known { result ≡ known_nodes reading.now }
    ensures limit { result ≤ most_places }
{
    match reading.keywords.dimension {
        Some(nodes) => nodes,
        None => 0,
    }
}

/// The k-th number of a row, from 0, or 0 where there is none.
#[tactic(auto, using(crate::proofs::RowLaws::int_at_is, std::proofs::lemmas::Option::slice_get_cases))]
pub(crate) fn int_at(row: &[i64], k: usize) -> i64
    ensures { result ≡ int_at k row.now }
{
    match row.get(k) {
        Some(number) => *number,
        None => 0,
    }
}

/// The same of a number that is not negative.
pub(crate) fn number_at(row: &[i64], k: usize) -> u64
    ensures { result ≡ number_at k row.now }
{
    int_at(row, k).unsigned_abs()
}

/// The row of a node, in a section with one for each.
fn row_of_node(rows: &Rows, node: u32) -> Option<&[i64]>
    requires node { node ≤ rows.now.nodes }
    requires kind { IsTrue (is_by_node rows.now.section) }
    ensures row { option_copied result ≡ find (λ numbers. number_at 0 numbers == node) rows.now.rows }
    ensures bounds { IfSome result (λ row. IsRow rows.now.section rows.now.nodes row.now) }
{
    match rows.row_of(node) {
        Some(k) => Some(rows.row(k)),
        None => None,
    }
}

/// The k-th number in the row of a node, or another number where the section has no such row.
pub(crate) fn entry(reading: &Reading, section: Section, k: usize, other: u64, node: u32) -> u64
    requires node { node ≤ known_nodes reading.now }
    requires kind { IsTrue (is_by_node section) }
    ensures { OfText reading.now (λ all. result ≡ entry reading.now.mode section k other all node) }
{
    match reading.rows_of(section) {
        Some(rows) => entry_in(rows, k, other, node),
        None => other,
    }
}

/// The same among the rows of the section.
fn entry_in(rows: &Rows, k: usize, other: u64, node: u32) -> u64
    requires node { node ≤ rows.now.nodes }
    requires kind { IsTrue (is_by_node rows.now.section) }
    ensures { result ≡ option_map_or (number_at k) (find (λ numbers. number_at 0 numbers == node) rows.now.rows) other }
{
    match row_of_node(rows, node) {
        Some(row) => number_at(row, k),
        None => other,
    }
}

/// The coordinates of a node, in millionths.
pub(crate) fn coordinates(reading: &Reading, node: u32) -> Place
    requires { node ≤ known_nodes reading.now }
    ensures place { OfText reading.now (λ all. result ≡ coordinates reading.now.mode all node) }
    ensures valid { IsValidPlace result }
{
    match reading.rows_of(Section::NodeCoord) {
        Some(rows) => place_in(rows, node),
        None => Place { x: 0, y: 0 },
    }
}

/// The coordinates of a node among the rows of coordinates.
fn place_in(rows: &Rows, node: u32) -> Place
    requires node { node ≤ rows.now.nodes }
    requires kind { rows.now.section ≡ Section.NodeCoord }
    ensures place { result ≡ record {
      x = option_map_or (int_at 1) (find (λ numbers. number_at 0 numbers == node) rows.now.rows) (pos 0);
      y = option_map_or (int_at 2) (find (λ numbers. number_at 0 numbers == node) rows.now.rows) (pos 0);
    } }
    ensures valid { IsValidPlace result }
{
    match row_of_node(rows, node) {
        Some(row) => Place {
            x: int_at(row, 1),
            y: int_at(row, 2),
        },
        None => Place { x: 0, y: 0 },
    }
}

/// The time window of a node.
pub(crate) fn window(reading: &Reading, node: u32) -> Window
    requires { node ≤ known_nodes reading.now }
    ensures { OfText reading.now (λ all. result ≡ window reading.now.mode all node) }
{
    Window {
        early: entry(reading, Section::TimeWindow, 1, 0, node),
        late: entry(reading, Section::TimeWindow, 2, LARGEST, node),
    }
}

/// The depot at a node.
pub(crate) fn depot(reading: &Reading, node: u32) -> Depot
    requires { node ≤ known_nodes reading.now }
    ensures { OfText reading.now (λ all. result ≡ depot reading.now.mode all node) }
{
    Depot {
        window: window(reading, node),
        service: entry(reading, Section::ServiceTime, 1, 0, node),
    }
}

/// The service of a client, which the keyword gives where no section does.
fn client_service(reading: &Reading, node: u32) -> u64
    requires { node ≤ known_nodes reading.now }
    ensures { OfText reading.now (λ all. result ≡ client_service reading.now.mode all node) }
{
    let other = reading.keywords.service_time.unwrap_or(0);
    entry(reading, Section::ServiceTime, 1, other, node)
}

/// The client at a node.
pub(crate) fn client(reading: &Reading, node: u32) -> Client
    requires least { 1 ≤ node }
    requires most { node ≤ known_nodes reading.now }
    ensures { OfText reading.now (λ all. result ≡ client reading.now.mode all node) }
{
    Client {
        delivery: entry(reading, Section::Demand, 1, 0, node),
        pickup: entry(reading, Section::Backhaul, 1, 0, node),
        window: window(reading, node),
        service: client_service(reading, node),
        release: entry(reading, Section::ReleaseTime, 1, 0, node),
        prize: entry(reading, Section::Prize, 1, 0, node),
        group: group_of(reading, node),
    }
}

/// Whether a depot has what only a client may have.
pub(crate) fn is_client_like(reading: &Reading, node: u32) -> bool
    requires { node ≤ known_nodes reading.now }
    ensures { OfText reading.now (λ all. result ≡ is_client_like reading.now.mode all node) }
{
    entry(reading, Section::Demand, 1, 0, node) > 0
        || entry(reading, Section::Backhaul, 1, 0, node) > 0
        || entry(reading, Section::ReleaseTime, 1, 0, node) > 0
        || entry(reading, Section::Prize, 1, 0, node) > 0
}

/// Where each node lies.
pub(crate) fn places(alloc: Global, reading: &Reading) -> Result<Vec<Place>, AllocError>
    ensures places { IfOk result (λ places. OfText reading.now (λ all. places.items ≡ map (coordinates reading.now.mode all) (nodes reading.now.mode all))) }
    ensures valid { IfOk result (λ places. All IsValidPlace places.items) }
    ensures count { IfOk result (λ places. length places.items ≡ known_nodes reading.now) }
{
    let count = node_count(reading);
    let mut places = Vec::with_capacity(alloc, count as usize)?;
    for before in 0..count {
        places.push(coordinates(reading, before + 1))?;
    }
    Ok(places)
}

/// The depots at the first nodes.
pub(crate) fn depots(alloc: Global, reading: &Reading, count: u32) -> Result<Vec<Depot>, AllocError>
    requires { count ≤ known_nodes reading.now }
    ensures { IfOk result (λ depots. OfText reading.now (λ all. depots.items ≡ map (depot reading.now.mode all) (counted 1 count))) }
{
    let mut depots = Vec::with_capacity(alloc, count as usize)?;
    for before in 0..count {
        depots.push(depot(reading, before + 1))?;
    }
    Ok(depots)
}

/// The clients at the nodes behind those of the depots.
pub(crate) fn clients(
    alloc: Global,
    reading: &Reading,
    depots: u32,
) -> Result<Vec<Client>, AllocError>
    requires { depots ≤ known_nodes reading.now }
    ensures { IfOk result (λ clients. OfText reading.now (λ all. clients.items ≡ map (client reading.now.mode all) (counted (depots + 1) (known_nodes reading.now - depots)))) }
{
    let count = node_count(reading) - depots;
    let mut clients = Vec::with_capacity(alloc, count as usize)?;
    for before in 0..count {
        clients.push(client(reading, depots + 1 + before))?;
    }
    Ok(clients)
}
