//! Clients at (3, 4), (6, 8) and (0, 2) from the depot, and vehicles of two types: one that costs 20 to use and two that cost
//! nothing to use.
ghost use Rattle.std.specs.Prelude.{◌≡◌, [], IfOk};
ghost use Rattle.sample_problem.specs.ThreeClients.{legs, plain_type, three_clients};

use problem_data::{
    Client, ClientList, Depot, DepotList, GroupList, LARGEST, Matrix, NoMemory, Place, PlaceList,
    PlaceTable, Problem, ProblemData, Profile, ProfileList, TypeList, UNLIMITED, VehicleType,
    Window,
};
use std::alloc::Global;

const ALWAYS: Window = Window {
    early: 0,
    late: LARGEST,
};

const ORIGIN: Place = Place { x: 0, y: 0 };

const DEPOT: Depot = Depot {
    window: ALWAYS,
    service: 0,
};

const CLIENT: Client = Client {
    delivery: 1,
    pickup: 0,
    window: ALWAYS,
    service: 0,
    release: 0,
    prize: 0,
    group: None,
};

const LEGS: [u32; 16] = [0, 5, 10, 2, 5, 0, 5, 4, 10, 5, 0, 8, 2, 4, 8, 0];

/// So many vehicles, each of this cost to use.
fn vehicles(alloc: Global, count: u32, fixed: u64) -> VehicleType
    ensures { result ≡ plain_type count fixed }
{
    VehicleType {
        count,
        capacity: 10,
        start: 0,
        end: 0,
        fixed,
        unit_distance: 1,
        unit_duration: 0,
        shift: ALWAYS,
        max_duration: UNLIMITED,
        max_distance: UNLIMITED,
        profile: 0,
        reloads: 0,
        reload_depots: PlaceList::from_vec(Vec::new(alloc)),
    }
}

/// The legs from place to place.
fn matrix(alloc: Global) -> Result<Matrix, NoMemory>
    ensures { IfOk result (λ matrix. matrix ≡ record { size = 4; entries = legs }) }
{
    Ok(Matrix::new(4, Vec::from_array(alloc, LEGS)?))
}

/// The profile.
fn profile(alloc: Global) -> Result<Profile, NoMemory>
    ensures { IfOk result (λ profile. profile ≡ record { distances = record { size = 4; entries = legs }; durations = record { size = 4; entries = legs } }) }
{
    Ok(Profile {
        distances: matrix(alloc)?,
        durations: matrix(alloc)?,
    })
}

/// The problem.
fn problem(alloc: Global) -> Result<Problem, NoMemory>
    ensures { IfOk result (λ problem. problem ≡ three_clients) }
{
    let places = vec![in alloc; ORIGIN, ORIGIN, ORIGIN, ORIGIN]?;
    let depots = vec![in alloc; DEPOT]?;
    let clients = vec![in alloc; CLIENT, CLIENT, CLIENT]?;
    let types = vec![in alloc; vehicles(alloc, 1, 20), vehicles(alloc, 2, 0)]?;
    let profiles = vec![in alloc; profile(alloc)?]?;
    Ok(Problem {
        places: PlaceTable::from_vec(places),
        depots: DepotList::from_vec(depots),
        clients: ClientList::from_vec(clients),
        types: TypeList::from_vec(types),
        profiles: ProfileList::from_vec(profiles),
        groups: GroupList::from_vec(Vec::new(alloc)),
    })
}

/// The problem, ready to be worked on.
pub fn problem_of_three_clients(alloc: Global) -> Result<ProblemData, NoMemory>
    ensures { IfOk result (λ given. given ≡ three_clients) }
{
    ProblemData::new(alloc, problem(alloc)?)
}
