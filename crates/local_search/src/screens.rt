//! Which candidates a later pass leaves out, by where their clients stand and by what was touched.
ghost use Rattle.std.specs.Prelude.{◌≡◌, ◌<◌, IsFalse, IsTrue};
ghost use Rattle.problem_data.specs.Places.{vehicle_count};
ghost use Rattle.descent_memory.specs.Memories.{IsMemoryOf};
ghost use Rattle.descent_memory.specs.Pairs.{pair_place};
ghost use Rattle.local_search.specs.inside.Screens.{IsPairUntouched, NoPutting, NoStart};

use descent_memory::Memory;
use list_changes::front_of;
use move_core::Search;

/// Whether a client stands first in its vehicle's list. Where it doesn't, nothing goes to the start before it.
pub(crate) fn is_first(search: &Search<'_>, client: u32) -> bool
    ensures { IsFalse result → NoStart search.now client }
{
    match front_of(search, client) {
        Some(_) => true,
        None => false,
    }
}

/// Whether a client is visited. Where it is, it can't be put in.
pub(crate) fn is_visited(search: &Search<'_>, client: u32) -> bool
    ensures { IsTrue result → NoPutting search.now client }
{
    match search.position(client) {
        Some(_) => true,
        None => false,
    }
}

/// Whether the lists of two vehicles were untouched since the moment of their pair, which stands at a place, and so were the least
/// unused vehicles of their types, if these differ.
pub(crate) fn is_pair_untouched(
    search: &Search<'_>,
    memory: &Memory,
    place: usize,
    first: u32,
    second: u32,
) -> bool
    requires order { first < second }
    requires second { second < vehicle_count search.now.problem }
    requires place { place ≡ pair_place (vehicle_count search.now.problem) first second }
    requires memory { IsMemoryOf search.now.problem search.now.routes memory.now }
    ensures { IsTrue result → IsPairUntouched search.now.problem memory.now first second }
{
    if !memory.are_lists_untouched(place, first, second) {
        return false;
    }
    let given = search.data();
    let first_type = given.type_of(first);
    let second_type = given.type_of(second);
    first_type == second_type || memory.are_types_untouched(place, first_type, second_type)
}
