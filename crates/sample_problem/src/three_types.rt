//! Clients at (3, 4), (0, 5) and (0, 2) from the depot, and three vehicles: one that costs 20 to use, one that carries less, and one
//! that drives twice as far.
ghost use Rattle.std.specs.Prelude.{◌≡◌, [], IfOk, List, ℕ, length};
ghost use Rattle.sample_problem.specs.ThreeTypes.{long_legs, long_table, prized_client, reloading_type, short_legs, short_table, three_types};

use problem_data::{
    Client, ClientList, Depot, DepotList, GroupList, LARGEST, Matrix, NoMemory, Place, PlaceList,
    PlaceTable, Problem, ProblemData, Profile, ProfileList, TypeList, UNLIMITED, VehicleType,
    Window,
};
use std::alloc::Global;

const ALWAYS: Window = Window {
    early: 0,
    late: LARGEST,
};

const ORIGIN: Place = Place { x: 0, y: 0 };

const DEPOT: Depot = Depot {
    window: ALWAYS,
    service: 0,
};

const SHORT_LEGS: [u32; 16] = [0, 5, 5, 2, 5, 0, 3, 4, 5, 3, 0, 3, 2, 4, 3, 0];

const LONG_LEGS: [u32; 16] = [0, 10, 10, 4, 10, 0, 6, 8, 10, 6, 0, 6, 4, 8, 6, 0];

/// A client of this prize.
fn client(prize: u64) -> Client
    ensures { result ≡ prized_client prize }
{
    Client {
        delivery: 3,
        pickup: 0,
        window: ALWAYS,
        service: 0,
        release: 0,
        prize,
        group: None,
    }
}

/// One vehicle that carries so much, costs so much to use, and drives by this profile.
fn vehicle(alloc: Global, capacity: u64, fixed: u64, profile: u32) -> Result<VehicleType, NoMemory>
    ensures { IfOk result (λ vehicle_type. vehicle_type ≡ reloading_type capacity fixed profile) }
{
    Ok(VehicleType {
        count: 1,
        capacity,
        start: 0,
        end: 0,
        fixed,
        unit_distance: 1,
        unit_duration: 0,
        shift: ALWAYS,
        max_duration: UNLIMITED,
        max_distance: UNLIMITED,
        profile,
        reloads: 2,
        reload_depots: PlaceList::from_vec(vec![in alloc; 0]?),
    })
}

/// The legs from place to place.
fn matrix(alloc: Global, legs: [u32; 16]) -> Result<Matrix, NoMemory>
    ensures { IfOk result (λ matrix. matrix ≡ record { size = 4; entries = legs }) }
{
    Ok(Matrix::new(4, Vec::from_array(alloc, legs)?))
}

/// The profile with these distances and durations.
fn profile(alloc: Global, legs: [u32; 16]) -> Result<Profile, NoMemory>
    ensures { IfOk result (λ profile. profile ≡ record { distances = record { size = 4; entries = legs }; durations = record { size = 4; entries = legs } }) }
{
    Ok(Profile {
        distances: matrix(alloc, legs)?,
        durations: matrix(alloc, legs)?,
    })
}

/// The problem.
fn problem(alloc: Global) -> Result<Problem, NoMemory>
    ensures { IfOk result (λ problem. problem ≡ three_types) }
{
    let places = vec![in alloc; ORIGIN, ORIGIN, ORIGIN, ORIGIN]?;
    let depots = vec![in alloc; DEPOT]?;
    let clients = vec![in alloc; client(7), client(0), client(9)]?;
    let costly = vehicle(alloc, 10, 20, 0)?;
    let small = vehicle(alloc, 2, 0, 0)?;
    let slow = vehicle(alloc, 10, 0, 1)?;
    let types = vec![in alloc; costly, small, slow]?;
    let short = profile(alloc, SHORT_LEGS)?;
    let long = profile(alloc, LONG_LEGS)?;
    let profiles = vec![in alloc; short, long]?;
    Ok(Problem {
        places: PlaceTable::from_vec(places),
        depots: DepotList::from_vec(depots),
        clients: ClientList::from_vec(clients),
        types: TypeList::from_vec(types),
        profiles: ProfileList::from_vec(profiles),
        groups: GroupList::from_vec(Vec::new(alloc)),
    })
}

/// The problem, ready to be worked on.
pub fn problem_of_three_types(alloc: Global) -> Result<ProblemData, NoMemory>
    ensures { IfOk result (λ given. given ≡ three_types) }
{
    ProblemData::new(alloc, problem(alloc)?)
}
