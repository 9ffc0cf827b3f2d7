//! Exchanges with no other piece: a piece goes to a target.
ghost use Rattle.std.specs.Prelude.{◌≡◌, ◌≢◌, ◌≤◌, ◌<◌, None};
ghost use Rattle.std.specs.Option.{MatchOption};
ghost use Rattle.list_changes.specs.Aims.{IsAim};
ghost use Rattle.exchange_screens.specs.inside.Pieces.{IsPieceFrom};
ghost use Rattle.exchange_screens.specs.Trials.{IsAnswer, IsChange};

use crate::piece::{Piece, piece_from};
use crate::trial::Trial;
use list_changes::{Aim, Change, Layout, NOTHING, Span, aim_of, gap_of};
use move_core::Search;

/// What a trial with no other piece changes. None where it doesn't apply, or changes nothing.
pub(crate) fn put(search: &Search<'_>, trial: Trial) -> Option<Change>
    requires alone { trial.m ≡ 0 }
    requires some { 1 ≤ trial.n }
    requires few { trial.n ≤ 3 }
    ensures { MatchOption result (IsAnswer search.now trial None) (λ change. IsChange search.now trial change) }
{
    let aim = aim_of(search, trial.target)?;
    let piece = piece_from(search, trial.client, trial.n)?;
    if aim.vehicle == piece.vehicle {
        put_within(search, trial, piece, aim)
    } else {
        Some(put_across(search, trial, piece, aim))
    }
}

/// Within its own list.
fn put_within(search: &Search<'_>, trial: Trial, piece: Piece, aim: Aim) -> Option<Change>
    requires alone { trial.m ≡ 0 }
    requires some { 1 ≤ trial.n }
    requires few { trial.n ≤ 3 }
    requires piece { IsPieceFrom search.now trial.client trial.n piece }
    requires aim { IsAim search.now trial.target aim }
    requires own { aim.vehicle ≡ piece.vehicle }
    ensures { MatchOption result (IsAnswer search.now trial None) (λ change. IsChange search.now trial change) }
{
    search.soundness();
    let gap = gap_of(search.route(piece.vehicle), piece.first, piece.end);
    let taken = Span {
        first: piece.first,
        end: piece.end,
    };
    let layout = if aim.place < piece.first {
        Layout {
            left: aim.place,
            one: taken,
            two: Span {
                first: aim.place,
                end: gap.left,
            },
            three: NOTHING,
            right: gap.right,
        }
    } else if aim.place > piece.end {
        Layout {
            left: gap.left,
            one: Span {
                first: gap.right,
                end: aim.place,
            },
            two: taken,
            three: NOTHING,
            right: aim.place,
        }
    } else {
        return None;
    };
    Some(Change::One {
        vehicle: piece.vehicle,
        layout,
    })
}

/// To another list.
fn put_across(search: &Search<'_>, trial: Trial, piece: Piece, aim: Aim) -> Change
    requires alone { trial.m ≡ 0 }
    requires some { 1 ≤ trial.n }
    requires few { trial.n ≤ 3 }
    requires piece { IsPieceFrom search.now trial.client trial.n piece }
    requires aim { IsAim search.now trial.target aim }
    requires apart { aim.vehicle ≢ piece.vehicle }
    ensures { IsChange search.now trial result }
{
    let gap = gap_of(search.route(piece.vehicle), piece.first, piece.end);
    Change::Two {
        first: piece.vehicle,
        second: aim.vehicle,
        one: Layout {
            left: gap.left,
            one: NOTHING,
            two: NOTHING,
            three: NOTHING,
            right: gap.right,
        },
        two: Layout {
            left: aim.place,
            one: piece.span(),
            two: NOTHING,
            three: NOTHING,
            right: aim.place,
        },
    }
}
