//! All candidates of a pass.
use granular::Neighbours;
use move_core::{Candidate, Kind, Target};
use problem_data::{NoMemory, ProblemData};
use std::alloc::Global;

/// The kinds that bring a client to an unused vehicle, in order.
const KINDS_TO_UNUSED: [Kind; 13] = [
    Kind::Exchange10,
    Kind::Exchange20,
    Kind::Exchange30,
    Kind::Exchange11,
    Kind::Exchange21,
    Kind::Exchange31,
    Kind::Exchange22,
    Kind::Exchange32,
    Kind::Exchange33,
    Kind::SwapTails,
    Kind::DepotBefore,
    Kind::DepotAfter,
    Kind::Insert,
];

/// Appends those of a kind that bring a client to a neighbour.
fn push_near(
    candidates: &mut Vec<Candidate>,
    kind: Kind,
    client: u32,
    neighbour: u32,
) -> Result<(), NoMemory> {
    for target in [Target::After(neighbour), Target::StartOf(neighbour)] {
        candidates.push(Candidate::Node {
            kind,
            client,
            target,
        })?;
    }
    Ok(())
}

/// Appends those of a client: with its neighbours, with the vehicle types, and alone.
fn push_client(
    candidates: &mut Vec<Candidate>,
    client: u32,
    near: &[u32],
    types: u32,
) -> Result<(), NoMemory> {
    for neighbour in near {
        for kind in KINDS_TO_UNUSED {
            push_near(candidates, kind, client, *neighbour)?;
        }
        push_near(candidates, Kind::Replace, client, *neighbour)?;
    }
    for vehicle_type in 0..types {
        for kind in KINDS_TO_UNUSED {
            candidates.push(Candidate::Node {
                kind,
                client,
                target: Target::Empty(vehicle_type),
            })?;
        }
    }
    for kind in [Kind::RemoveDepot, Kind::Remove] {
        candidates.push(Candidate::Solo { kind, client })?;
    }
    Ok(())
}

/// All candidates, in order: those of each client in an order, and those of each pair of vehicles.
pub(crate) fn candidates_of(
    alloc: Global,
    given: &ProblemData,
    neighbours: &Neighbours,
    order: &[u32],
) -> Result<Vec<Candidate>, NoMemory> {
    let mut candidates = Vec::new(alloc);
    let types = given.problem().types.items().len() as u32;
    for client in order {
        push_client(&mut candidates, *client, neighbours.of(*client), types)?;
    }
    for first in 0..given.vehicles() {
        for second in first + 1..given.vehicles() {
            for kind in [Kind::SwapRoutes, Kind::SwapStar] {
                candidates.push(Candidate::Routes {
                    kind,
                    first,
                    second,
                })?;
            }
        }
    }
    Ok(candidates)
}
