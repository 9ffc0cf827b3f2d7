//! Exchanges of two pieces.
ghost use Rattle.std.specs.Prelude.{◌≡◌, ◌≢◌, ◌≤◌, None};
ghost use Rattle.std.specs.Option.{MatchOption};
ghost use Rattle.exchange_screens.specs.Trials.{IsAnswer, IsChange};

use crate::piece::{Piece, piece_from};
use crate::trial::Trial;
use list_changes::{Change, Layout, NOTHING, Span};
use move_core::{Search, Target};

/// What a trial with another piece changes. None where it doesn't apply.
pub(crate) fn swap(search: &Search<'_>, trial: Trial) -> Option<Change>
    requires other { 1 ≤ trial.m }
    requires fewer { trial.m ≤ trial.n }
    requires few { trial.n ≤ 3 }
    ensures { MatchOption result (IsAnswer search.now trial None) (λ change. IsChange search.now trial change) }
{
    search.soundness();
    let Target::After(client) = trial.target else {
        return None;
    };
    let first = piece_from(search, trial.client, trial.n)?;
    let second = piece_from(search, client, trial.m)?;
    if first.vehicle != second.vehicle {
        return Some(Change::Two {
            first: first.vehicle,
            second: second.vehicle,
            one: replaced(first, second),
            two: replaced(second, first),
        });
    }
    let layout = if first.end <= second.first {
        swapped(first, second)
    } else if second.end <= first.first {
        swapped(second, first)
    } else {
        return None;
    };
    Some(Change::One {
        vehicle: first.vehicle,
        layout,
    })
}

/// Another list's piece in the place of a list's own.
fn replaced(own: Piece, other: Piece) -> Layout
    ensures { result ≡ record { left = own.first; one = record { first = other.first; end = other.end }; two = record { first = 0; end = 0 }; three = record { first = 0; end = 0 }; right = own.end } }
{
    Layout {
        left: own.first,
        one: other.span(),
        two: NOTHING,
        three: NOTHING,
        right: own.end,
    }
}

/// Two pieces of a list in each other's place.
fn swapped(earlier: Piece, later: Piece) -> Layout
    ensures { result ≡ record { left = earlier.first; one = record { first = later.first; end = later.end }; two = record { first = earlier.end; end = later.first }; three = record { first = earlier.first; end = earlier.end }; right = later.end } }
{
    Layout {
        left: earlier.first,
        one: later.span(),
        two: Span {
            first: earlier.end,
            end: later.first,
        },
        three: earlier.span(),
        right: later.end,
    }
}
