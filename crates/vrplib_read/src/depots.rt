//! The depots of a text.
ghost use Rattle.std.specs.Prelude.{◌≡◌, ◌^◌, ◌≤◌, ◌<◌, MatchOption, IfSome, false, length, true};
ghost use Rattle.std.specs.List.{list_any};
ghost use Rattle.vrplib_model.specs.Rows.{nodes_of};
ghost use Rattle.vrplib_model.specs.Entries.{counted, depot_nodes};
ghost use Rattle.vrplib_read.specs.inside.OfText.{OfText, known_nodes, are_first, are_first_below, has_bad_depots, next_count};
ghost use Rattle.vrplib_model.specs.WholeText.{has_other_depots, is_client_like};

use crate::entries::{is_client_like, node_count};
use crate::reading::Reading;
use vrplib_model::Section;

/// How many nodes are among the numbers of a depot section, where they are 1, 2 and so on.
fn count_in_order(numbers: &[i64]) -> Option<usize>
    ensures { MatchOption result (are_first (nodes_of numbers.now) ≡ false) (λ count. (are_first (nodes_of numbers.now) ≡ true) × (count ≡ length (nodes_of numbers.now))) }
{
    let mut count = 0;
    for number in numbers {
        count = next_count(count, *number)?;
    }
    Some(count)
}

/// The count behind one more number: -1 is no node.
fn next_count(count: usize, number: i64) -> Option<usize>
    requires { count < 2 ^ 63 }
    ensures { result ≡ next_count count number }
{
    if number < 0 {
        Some(count)
    } else if number as u64 == count as u64 + 1 {
        Some(count + 1)
    } else {
        None
    }
}

/// How many depots there are, where they are the first nodes of so many and leave one for a client.
fn depots_among(nodes: u32, numbers: &[i64]) -> Option<u32>
    ensures depots { MatchOption result (are_first_below nodes (nodes_of numbers.now) ≡ false) (λ count. (are_first_below nodes (nodes_of numbers.now) ≡ true) × (count ≡ length (nodes_of numbers.now))) }
    ensures bounds { IfSome result (λ count. (1 ≤ count) × (count < nodes)) }
{
    let count = count_in_order(numbers)?;
    if 1 <= count && count < nodes as usize {
        Some(count as u32)
    } else {
        None
    }
}

/// How many depots there are, where they are the first nodes and leave one for a client.
fn first_depots(reading: &Reading) -> Option<u32>
    requires { 2 ≤ known_nodes reading.now }
    ensures depots { OfText reading.now (λ all. MatchOption result (has_other_depots reading.now.mode all ≡ true) (λ count. (has_other_depots reading.now.mode all ≡ false) × (depot_nodes reading.now.mode all ≡ counted 1 count))) }
    ensures bounds { IfSome result (λ count. (1 ≤ count) × (count < known_nodes reading.now)) }
{
    match reading.rows_of(Section::Depot) {
        Some(rows) => depots_among(node_count(reading), rows.numbers()),
        None => Some(1),
    }
}

/// Whether one of the first nodes, the depots, has what only a client may have.
fn has_client_like(reading: &Reading, depots: u32) -> bool
    requires { depots ≤ known_nodes reading.now }
    ensures { OfText reading.now (λ all. result ≡ list_any (is_client_like reading.now.mode all) (counted 1 depots)) }
{
    for before in 0..depots {
        if is_client_like(reading, before + 1) {
            return true;
        }
    }
    false
}

/// How many depots there are, where they are the first nodes, leave one for a client, and have nothing that only a client may have.
pub(crate) fn depot_count(reading: &Reading) -> Option<u32>
    requires { 2 ≤ known_nodes reading.now }
    ensures depots { OfText reading.now (λ all. MatchOption result (has_bad_depots reading.now.mode all ≡ true) (λ count. (has_bad_depots reading.now.mode all ≡ false) × (depot_nodes reading.now.mode all ≡ counted 1 count))) }
    ensures bounds { IfSome result (λ count. (1 ≤ count) × (count < known_nodes reading.now)) }
{
    let count = first_depots(reading)?;
    if has_client_like(reading, count) {
        None
    } else {
        Some(count)
    }
}
