//! How a list goes on behind a new reload.
ghost use Rattle.std.specs.Prelude.{◌≡◌, ◌<◌, ◌≤◌, length, slice_get};
ghost use Rattle.problem_data.specs.Places.{vehicle_count};
ghost use Rattle.routing_model.specs.Routes.{list_at};
ghost use Rattle.reload_puts.specs.inside.Endings.{ending_by};

use move_core::Search;
use problem_data::Visit;

/// A list's last visits, from a position on, as they come behind a new reload, so that the list is tidy, and whether the reload stays.
#[derive(Clone, Copy)]
pub(crate) struct Ending {
    pub(crate) right: u32,
    pub(crate) stays: bool,
}

/// The last visits of a vehicle's list from a position on, behind a new reload: a reload there goes, and where nothing comes the new one
/// goes.
pub(crate) fn ending_of(search: &Search<'_>, vehicle: u32, at: u32) -> Ending
    requires vehicle { vehicle < vehicle_count search.now.problem }
    requires at { at ≤ length (list_at search.now.routes vehicle) }
    ensures { result ≡ ending_by (slice_get (list_at search.now.routes vehicle) at) at }
{
    match search.route(vehicle).visits().get(at as usize) {
        Some(Visit::Client(_)) => Ending {
            right: at,
            stays: true,
        },
        Some(Visit::Reload(_)) => Ending {
            right: at + 1,
            stays: true,
        },
        None => Ending {
            right: at,
            stays: false,
        },
    }
}
