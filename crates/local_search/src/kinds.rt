//! The kinds of a kit's operators.
ghost use Rattle.std.specs.Prelude.{◌≡◌, ◌<◌};
ghost use Rattle.local_search.specs.inside.Turns.{kind_at};

use move_core::Kind;

/// The kind at a place of a kit.
pub(crate) fn kind_at(at: usize) -> Kind
    requires { at < 18 }
    ensures { result ≡ kind_at at }
{
    match at {
        0 => Kind::Exchange10,
        1 => Kind::Exchange20,
        2 => Kind::Exchange30,
        3 => Kind::Exchange11,
        4 => Kind::Exchange21,
        5 => Kind::Exchange31,
        6 => Kind::Exchange22,
        7 => Kind::Exchange32,
        8 => Kind::Exchange33,
        9 => Kind::SwapTails,
        10 => Kind::DepotBefore,
        11 => Kind::DepotAfter,
        12 => Kind::RemoveDepot,
        13 => Kind::Insert,
        14 => Kind::Remove,
        15 => Kind::Replace,
        16 => Kind::SwapRoutes,
        _ => Kind::SwapStar,
    }
}
