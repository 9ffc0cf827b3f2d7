//! Exchanges to the start of a list.
ghost use Rattle.std.specs.Prelude.{IsFalse};
ghost use Rattle.exchange_screens.specs.Trials.{NoStart};

use list_changes::front_of;
use move_core::Search;

/// Whether a client stands first in its vehicle's list. Where it doesn't, no exchange goes to the start before it.
pub fn stands_first(search: &Search<'_>, client: u32) -> bool
    ensures { IsFalse result → NoStart search.now client }
{
    search.soundness();
    match front_of(search, client) {
        Some(_) => true,
        None => false,
    }
}
