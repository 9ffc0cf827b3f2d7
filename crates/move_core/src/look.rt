//! What a look at a client and a neighbour found.
ghost use Rattle.std.specs.Prelude.{◌≡◌, ◌<◌, IfSome, IsTrue, slice_index_or};
ghost use Rattle.search_model.specs.declared.kind.Kind.TheVariants.{Exchange10};
ghost use Rattle.search_model.specs.Kinds.{exchange_kinds};
ghost use Rattle.move_core.specs.Looks.{AreHopeless, GivesNothing};
ghost use Rattle.move_core.specs.Searches.{SearchState};

use search_model::Kind;

/// A client and a neighbour, and marks of those exchanges, in their order, whose move of the client behind the neighbour gives nothing.
#[derive(Clone, Copy)]
pub(crate) struct Look {
    pub(crate) client: u32,
    pub(crate) neighbour: u32,
    pub(crate) hopeless: [bool; 9],
}

impl Look {
    /// A look that found nothing.
    pub(crate) fn nothing() -> Look
        ensures { (s : SearchState) → AreHopeless s result.client result.neighbour result.hopeless }
    {
        Look {
            client: 0,
            neighbour: 0,
            hopeless: [false; 9],
        }
    }

    /// Whether a kind is marked.
    pub(crate) fn has(&self, kind: Kind) -> bool
        ensures { IsTrue result → (s : SearchState) → AreHopeless s self.now.client self.now.neighbour self.now.hopeless → GivesNothing s kind self.now.client self.now.neighbour }
    {
        match place_of(kind) {
            Some(at) => self.hopeless[at],
            None => false,
        }
    }
}

/// The place of a kind among the exchanges. None where it is another one.
fn place_of(kind: Kind) -> Option<usize>
    ensures few { IfSome result (λ at. at < 9) }
    ensures place { IfSome result (λ at. slice_index_or exchange_kinds at Exchange10 ≡ kind) }
{
    match kind {
        Kind::Exchange10 => Some(0),
        Kind::Exchange20 => Some(1),
        Kind::Exchange30 => Some(2),
        Kind::Exchange11 => Some(3),
        Kind::Exchange21 => Some(4),
        Kind::Exchange31 => Some(5),
        Kind::Exchange22 => Some(6),
        Kind::Exchange32 => Some(7),
        Kind::Exchange33 => Some(8),
        _ => None,
    }
}
