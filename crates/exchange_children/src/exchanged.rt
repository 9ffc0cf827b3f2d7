//! Which vehicles get whose lists.
ghost use Rattle.std.specs.Prelude.{◌≡◌, length};
ghost use Rattle.exchange_children.specs.inside.Givers.{giver_in};

use problem_data::VisitList;

/// Two parents' lists, and the exchange between them: the first parent's vehicles `into`, one after the other, get the lists of the second
/// parent's vehicles `from`.
#[derive(Clone, Copy)]
pub struct Exchanged<'s> {
    pub parent: &'s [VisitList],
    pub other: &'s [VisitList],
    pub into: &'s [u32],
    pub from: &'s [u32],
}

/// The vehicle whose list a vehicle gets, if it gets one.
pub(crate) fn giver_of(into: &[u32], from: &[u32], vehicle: u32) -> Option<u32>
    requires as_many { length into.now ≡ length from.now }
    ensures { result ≡ giver_in into.now from.now vehicle }
{
    for (at, receiver) in into.iter().enumerate() {
        if *receiver == vehicle {
            return Some(from[at]);
        }
    }
    None
}
