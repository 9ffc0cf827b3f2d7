//! Where clients are put.
ghost use Rattle.std.specs.Option.{MatchOption};
ghost use Rattle.list_changes.specs.Aims.{IsAim, IsNoAim};

use move_core::{Search, Target};

/// A place in a vehicle's list: directly before the visit at this position, from 0, or behind all visits.
#[derive(Clone, Copy)]
pub struct Aim {
    pub vehicle: u32,
    pub place: u32,
}

/// The place that a target names. None where what it names isn't there.
pub fn aim_of(search: &Search<'_>, target: Target) -> Option<Aim>
    ensures { MatchOption result (IsNoAim search.now target) (λ aim. IsAim search.now target aim) }
{
    match target {
        Target::After(client) => {
            let (vehicle, place) = search.position(client)?;
            Some(Aim { vehicle, place })
        }
        Target::StartOf(client) => front_of(search, client),
        Target::Empty(vehicle_type) => {
            let vehicle = search.unused(vehicle_type)?;
            Some(Aim { vehicle, place: 0 })
        }
    }
}

/// The front of a list that begins with a client. None where no list does.
pub fn front_of(search: &Search<'_>, client: u32) -> Option<Aim>
    ensures { MatchOption result (IsNoAim search.now (Target.StartOf client)) (λ aim. IsAim search.now (Target.StartOf client) aim) }
{
    let (vehicle, place) = search.position(client)?;
    if place == 1 {
        Some(Aim { vehicle, place: 0 })
    } else {
        None
    }
}
