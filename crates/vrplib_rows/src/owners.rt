//! The rows that name each node first.
ghost use Rattle.std.specs.Prelude.{◌≡◌, ℕ, ◌+◌, ◌==◌, ◌&&◌, ◌<◌, true, nat_lt, if◌then◌else◌, List, ◌++◌, ℤ, All, flat_map, length, slice_index};
ghost use Rattle.std.specs.List.{list_any};
ghost use Rattle.vrplib_model.specs.Checks.{contains, has_repeated};
ghost use Rattle.vrplib_rows.specs.inside.RowTables.{AreOwned, names_apart};
ghost use Rattle.vrplib_model.specs.RowFaults.{nodes_named};

use crate::marks::Marks;
use vrplib_model::Section;

/// Whether one of the nodes has an owner.
fn is_owned(owners: &[u32], named: &[u64]) -> bool
    requires { All (λ n. n < length owners.now) named.now }
    ensures { result ≡ list_any (λ n. nat_lt 0 (slice_index owners.now n)) named.now }
{
    named.iter().any(|node| 0 < owners[*node as usize])
}

/// Whether a node comes again among these and those that earlier rows of the section name.
pub(crate) fn comes_again(
    section: Section,
    named: &[u64],
    owners: &[u32],
    marks: &mut Marks,
) -> bool
    requires apart { names_apart section ≡ true }
    requires owners { All (λ n. n < length owners.now) named.now }
    requires marks { All (λ n. n < marks.old) named.now }
    ensures answer { (nodes : ℕ) (rows : List (List ℤ)) → AreOwned section nodes rows owners.now
        → result ≡ has_repeated (named.now ++ flat_map (nodes_named section) rows) }
    ensures kept { marks.new ≡ marks.old }
{
    marks.has_repeated(named) || is_owned(owners, named)
}

/// Makes the row with the number the owner of a node that has none.
fn own_node(owners: &mut [u32], node: usize, number: u32)
    requires { node < length owners.old }
    ensures { (n : ℕ) → slice_index owners.new n
        ≡ (if slice_index owners.old n == 0 && node == n then number else slice_index owners.old n) }
{
    if owners[node] == 0 {
        owners[node] = number;
    }
}

/// Makes the row with the number the owner of those nodes that have none.
pub(crate) fn own(owners: &mut [u32], named: &[u64], number: u32)
    requires { All (λ n. n < length owners.old) named.now }
    ensures { (n : ℕ) → slice_index owners.new n
        ≡ (if slice_index owners.old n == 0 && contains n named.now then number else slice_index owners.old n) }
{
    for node in named {
        own_node(owners, *node as usize, number);
    }
}
