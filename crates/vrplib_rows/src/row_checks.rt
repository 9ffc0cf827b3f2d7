//! The checks of a row's numbers.
ghost use Rattle.std.specs.Prelude.{◌≡◌, ℕ, ◌+◌, ◌<◌, Bool, true, false, ◌||◌, ◌&&◌, List, [], ◌∷◌, ◌++◌, ℤ, All, flat_map, length};
ghost use Rattle.vrplib_model.specs.Checks.{broken_if, first_of, has_node_outside, has_repeated};
ghost use Rattle.vrplib_rows.specs.inside.RowTables.{AreOwned};
ghost use Rattle.vrplib_rows.specs.inside.NextRows.{Follows, numbers_fault};
ghost use Rattle.vrplib_model.specs.declared.section.Section.TheVariants.{Group as group_section, VehicleTypes as vehicle_types_section};
ghost use Rattle.vrplib_model.specs.RowFaults.{has_bad_node, has_empty_window, has_other_reloads, is_bad_group, is_bad_vehicle, names_once, nodes_named};

use crate::marks::Marks;
use crate::next_row::NextRow;
use crate::owners::comes_again;
use crate::row_nodes::{behind, number_at};
use crate::row_shape::broken_if;
use vrplib_model::{Rule, Section};

/// Whether a number isn't a node.
pub(crate) fn has_node_outside(nodes: u32, named: &[u64]) -> bool
    ensures answer { result ≡ has_node_outside nodes named.now }
    ensures inside { result ≡ false → All (λ n. n < nodes + 1) named.now }
{
    let nodes = u64::from(nodes);
    named.iter().any(|node| !(0 < *node && *node <= nodes))
}

/// Whether the section names each node at most once.
fn names_once(section: Section) -> bool
    ensures { result ≡ names_once section }
{
    match section {
        Section::NodeCoord
        | Section::Demand
        | Section::Backhaul
        | Section::TimeWindow
        | Section::ServiceTime
        | Section::ReleaseTime
        | Section::Prize
        | Section::Depot => true,
        Section::EdgeWeight | Section::Group | Section::Profile | Section::VehicleTypes => false,
    }
}

/// Whether a window ends before it begins.
pub(crate) fn has_empty_window(section: Section, row: &[i64]) -> bool
    ensures { result ≡ has_empty_window section row.now }
{
    match section {
        Section::TimeWindow => number_at(row, 2) < number_at(row, 1),
        Section::VehicleTypes => number_at(row, 9) < number_at(row, 8),
        _ => false,
    }
}

/// Whether depots follow where there are no reloads, or none where there are some.
fn has_other_reloads(reloads: u64, depots: &[i64]) -> bool
    ensures { result ≡ has_other_reloads reloads depots.now }
{
    if depots.is_empty() {
        0 < reloads
    } else {
        reloads == 0
    }
}

/// Whether a node doesn't exist, or comes again in a section that names each at most once.
fn has_bad_node(
    section: Section,
    nodes: u32,
    named: &[u64],
    owners: &[u32],
    marks: &mut Marks,
) -> bool
    requires owners { length owners.now ≡ nodes + 1 }
    requires marks { marks.old ≡ nodes + 1 }
    ensures answer { (rows : List (List ℤ)) → AreOwned section nodes rows owners.now
        → result ≡ (has_node_outside nodes named.now || (names_once section && has_repeated (named.now ++ flat_map (nodes_named section) rows))) }
    ensures inside { result ≡ false → All (λ n. n < nodes + 1) named.now }
    ensures kept { marks.new ≡ marks.old }
{
    has_node_outside(nodes, named)
        || (names_once(section) && comes_again(section, named, owners, marks))
}

/// Whether a vehicle type has a wrong number, a reload depot twice, or depots that don't go with its reloads.
fn is_bad_type(number: u64, row: &[i64], named: &[u64], marks: &mut Marks) -> bool
    requires named { named.now ≡ nodes_named vehicle_types_section row.now }
    requires marks { All (λ n. n < marks.old) named.now }
    ensures answer { (rows : List (List ℤ)) → number ≡ length rows + 1 → result ≡ is_bad_vehicle vehicle_types_section row.now rows }
    ensures kept { marks.new ≡ marks.old }
{
    number_at(row, 0) != number
        || marks.has_repeated(&named[2..])
        || has_other_reloads(number_at(row, 13), behind(row, 14))
}

/// Whether a group has a wrong number, or a node that is in a group already.
fn is_wrong_group(
    number: u64,
    row: &[i64],
    named: &[u64],
    owners: &[u32],
    marks: &mut Marks,
) -> bool
    requires named { named.now ≡ nodes_named group_section row.now }
    requires owners { All (λ n. n < length owners.now) named.now }
    requires marks { All (λ n. n < marks.old) named.now }
    ensures answer { (nodes : ℕ) (rows : List (List ℤ)) → number ≡ length rows + 1 → AreOwned group_section nodes rows owners.now
        → result ≡ is_bad_group group_section row.now rows }
    ensures kept { marks.new ≡ marks.old }
{
    number_at(row, 0) != number || comes_again(Section::Group, named, owners, marks)
}

/// The rule that the row breaks as a vehicle type or as a group.
fn kind_fault(
    next: NextRow,
    row: &[i64],
    named: &[u64],
    owners: &[u32],
    marks: &mut Marks,
) -> Option<Rule>
    requires named { named.now ≡ nodes_named next.section row.now }
    requires owners { All (λ n. n < length owners.now) named.now }
    requires marks { All (λ n. n < marks.old) named.now }
    ensures answer { (nodes : ℕ) (rows : List (List ℤ)) → Follows next rows → AreOwned next.section nodes rows owners.now
        → result ≡ first_of (broken_if (is_bad_vehicle next.section row.now rows) Rule.BadVehicle
        ∷ broken_if (is_bad_group next.section row.now rows) Rule.BadGroup ∷ []) }
    ensures kept { marks.new ≡ marks.old }
{
    match next.section {
        Section::VehicleTypes => broken_if(
            is_bad_type(next.number, row, named, marks),
            Rule::BadVehicle,
        ),
        Section::Group => broken_if(
            is_wrong_group(next.number, row, named, owners, marks),
            Rule::BadGroup,
        ),
        _ => None,
    }
}

/// The first rule that the numbers of the next row break, together with the rows above it.
pub(crate) fn numbers_fault(
    next: NextRow,
    nodes: u32,
    row: &[i64],
    named: &[u64],
    owners: &[u32],
    marks: &mut Marks,
) -> Option<Rule>
    requires named { named.now ≡ nodes_named next.section row.now }
    requires owners { length owners.now ≡ nodes + 1 }
    requires marks { marks.old ≡ nodes + 1 }
    ensures answer { (rows : List (List ℤ)) → Follows next rows → AreOwned next.section nodes rows owners.now
        → result ≡ numbers_fault nodes next.section row.now rows }
    ensures inside { result ≡ None → All (λ n. n < nodes + 1) named.now }
    ensures kept { marks.new ≡ marks.old }
{
    if has_bad_node(next.section, nodes, named, owners, marks) {
        return Some(Rule::BadNode);
    }
    if has_empty_window(next.section, row) {
        return Some(Rule::EmptyWindow);
    }
    kind_fault(next, row, named, owners, marks)
}
