//! Reloads taken out.
ghost use Rattle.std.specs.Prelude.{◌≡◌, None, slice_get};
ghost use Rattle.std.specs.Option.{MatchOption};
ghost use Rattle.trips.specs.Joints.{is_some_reload};
ghost use Rattle.list_changes.specs.Moves.{IsAnswerTo};
ghost use Rattle.depot_changes.specs.Removing.{IsRemoval, out_candidate};

use list_changes::{Change, Gap};
use move_core::Search;
use problem_data::Visit;

/// What taking out the reload directly behind a client changes. None where no reload stands there, or the client isn't visited; then
/// nothing is the answer. It reads no leg.
pub fn reload_out(search: &Search<'_>, client: u32) -> Option<Change>
    ensures { MatchOption result (IsAnswerTo search.now (out_candidate client) None) (λ change. IsRemoval search.now client change) }
{
    if !search.has_reload_types() {
        return None;
    }
    let (vehicle, left) = search.position(client)?;
    let visits = search.route(vehicle).visits();
    if !has_reload(visits, left) {
        return None;
    }
    let gap = Gap {
        left,
        right: left + 1,
    };
    Some(Change::One {
        vehicle,
        layout: gap.layout(),
    })
}

/// Whether a reload stands at a position.
fn has_reload(visits: &[Visit], position: u32) -> bool
    ensures { result ≡ is_some_reload (slice_get visits.now position) }
{
    is_reload(visits.get(position as usize).copied())
}

/// Whether a visit, if there is one, is a reload.
fn is_reload(visit: Option<Visit>) -> bool
    ensures { result ≡ is_some_reload visit }
{
    match visit {
        Some(Visit::Reload(_)) => true,
        _ => false,
    }
}
