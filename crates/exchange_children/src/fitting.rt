//! Lists as a vehicle may have them.
ghost use Rattle.std.specs.Prelude.{◌≡◌, IfOk};
ghost use Rattle.genetic_model.specs.RouteChildren.{fitted};
ghost use Rattle.exchange_children.specs.inside.Fitting.{left_behind};

use crate::membership::is_among;
use problem_data::{NoMemory, VehicleType, Visit};
use std::alloc::Global;

/// How many more reloads a list may have behind a visit where it may have so many before it, if the visit may stay: a client, or a reload
/// at a depot that the type allows.
fn left_behind(vehicle_type: &VehicleType, left: u32, visit: Visit) -> Option<u32>
    ensures { result ≡ left_behind vehicle_type.now left visit }
{
    match visit {
        Visit::Client(_) => Some(left),
        Visit::Reload(depot) => {
            if left > 0 && is_among(vehicle_type.reload_depots.items(), depot) {
                Some(left - 1)
            } else {
                None
            }
        }
    }
}

/// A list as a vehicle of that type may have it: without reloads at depots that the type doesn't allow, and of the others the first ones
/// only, in the type's number.
pub(crate) fn fitted(
    alloc: Global,
    vehicle_type: &VehicleType,
    visits: &[Visit],
) -> Result<Vec<Visit>, NoMemory>
    ensures { IfOk result (λ r. r.items ≡ fitted vehicle_type.now visits.now) }
{
    let mut list = Vec::new(alloc);
    let mut left = vehicle_type.reloads;
    for visit in visits {
        if let Some(fewer) = left_behind(vehicle_type, left, *visit) {
            list.push(*visit)?;
            left = fewer;
        }
    }
    Ok(list)
}
