//! Clients at (3, 4) and (0, 5) from the depot that want nothing, and two vehicles that cost 50 to use.
ghost use Rattle.std.specs.Prelude.{◌≡◌, [], IfOk};
ghost use Rattle.sample_problem.specs.ThreeClients.{plain_type};
ghost use Rattle.sample_problem.specs.TwoVehicles.{near_legs, two_vehicles};

use problem_data::{
    Client, ClientList, Depot, DepotList, GroupList, LARGEST, Matrix, NoMemory, Place, PlaceList,
    PlaceTable, Problem, ProblemData, Profile, ProfileList, TypeList, UNLIMITED, VehicleType,
    Window,
};
use std::alloc::Global;

const ALWAYS: Window = Window {
    early: 0,
    late: LARGEST,
};

const ORIGIN: Place = Place { x: 0, y: 0 };

const DEPOT: Depot = Depot {
    window: ALWAYS,
    service: 0,
};

const CLIENT: Client = Client {
    delivery: 0,
    pickup: 0,
    window: ALWAYS,
    service: 0,
    release: 0,
    prize: 0,
    group: None,
};

const LEGS: [u32; 9] = [0, 5, 5, 5, 0, 3, 5, 3, 0];

/// The vehicles.
fn vehicles(alloc: Global) -> VehicleType
    ensures { result ≡ plain_type 2 50 }
{
    VehicleType {
        count: 2,
        capacity: 10,
        start: 0,
        end: 0,
        fixed: 50,
        unit_distance: 1,
        unit_duration: 0,
        shift: ALWAYS,
        max_duration: UNLIMITED,
        max_distance: UNLIMITED,
        profile: 0,
        reloads: 0,
        reload_depots: PlaceList::from_vec(Vec::new(alloc)),
    }
}

/// The legs from place to place.
fn matrix(alloc: Global) -> Result<Matrix, NoMemory>
    ensures { IfOk result (λ matrix. matrix ≡ record { size = 3; entries = near_legs }) }
{
    Ok(Matrix::new(3, Vec::from_array(alloc, LEGS)?))
}

/// The profile.
fn profile(alloc: Global) -> Result<Profile, NoMemory>
    ensures { IfOk result (λ profile. profile ≡ record { distances = record { size = 3; entries = near_legs }; durations = record { size = 3; entries = near_legs } }) }
{
    Ok(Profile {
        distances: matrix(alloc)?,
        durations: matrix(alloc)?,
    })
}

/// The problem.
fn problem(alloc: Global) -> Result<Problem, NoMemory>
    ensures { IfOk result (λ problem. problem ≡ two_vehicles) }
{
    let places = vec![in alloc; ORIGIN, ORIGIN, ORIGIN]?;
    let depots = vec![in alloc; DEPOT]?;
    let clients = vec![in alloc; CLIENT, CLIENT]?;
    let types = vec![in alloc; vehicles(alloc)]?;
    let profiles = vec![in alloc; profile(alloc)?]?;
    Ok(Problem {
        places: PlaceTable::from_vec(places),
        depots: DepotList::from_vec(depots),
        clients: ClientList::from_vec(clients),
        types: TypeList::from_vec(types),
        profiles: ProfileList::from_vec(profiles),
        groups: GroupList::from_vec(Vec::new(alloc)),
    })
}

/// The problem, ready to be worked on.
pub fn problem_of_two_vehicles(alloc: Global) -> Result<ProblemData, NoMemory>
    ensures { IfOk result (λ given. given ≡ two_vehicles) }
{
    ProblemData::new(alloc, problem(alloc)?)
}
