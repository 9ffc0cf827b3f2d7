//! A depot that is open from 0 to 100, two clients, of which the second one has its goods at 30, legs of 5 between all places, and
//! one vehicle that may reload once.
ghost use Rattle.std.specs.Prelude.{◌≡◌, [], IfOk};
ghost use Rattle.sample_problem.specs.TwoTrips.{early_client, fives, late_client, one_vehicle, the_depot, two_trips};

use problem_data::{
    Client, ClientList, Depot, DepotList, GroupList, LARGEST, Matrix, NoMemory, Place, PlaceList,
    PlaceTable, Problem, ProblemData, Profile, ProfileList, TypeList, UNLIMITED, VehicleType,
    Window,
};
use std::alloc::Global;

const OPEN: Window = Window {
    early: 0,
    late: 100,
};

const ORIGIN: Place = Place { x: 0, y: 0 };

const DEPOT: Depot = Depot {
    window: OPEN,
    service: 0,
};

const EARLY: Client = Client {
    delivery: 0,
    pickup: 0,
    window: Window { early: 0, late: 10 },
    service: 0,
    release: 0,
    prize: 7,
    group: None,
};

const LATE: Client = Client {
    delivery: 0,
    pickup: 0,
    window: OPEN,
    service: 0,
    release: 30,
    prize: 0,
    group: None,
};

const FIVES: [u32; 9] = [0, 5, 5, 5, 0, 5, 5, 5, 0];

/// The vehicle.
fn vehicle(alloc: Global) -> Result<VehicleType, NoMemory>
    ensures { IfOk result (λ vehicle_type. vehicle_type ≡ one_vehicle) }
{
    Ok(VehicleType {
        count: 1,
        capacity: 10,
        start: 0,
        end: 0,
        fixed: 0,
        unit_distance: 1,
        unit_duration: 0,
        shift: Window {
            early: 0,
            late: LARGEST,
        },
        max_duration: UNLIMITED,
        max_distance: UNLIMITED,
        profile: 0,
        reloads: 1,
        reload_depots: PlaceList::from_vec(vec![in alloc; 0]?),
    })
}

/// The legs from place to place.
fn matrix(alloc: Global) -> Result<Matrix, NoMemory>
    ensures { IfOk result (λ matrix. matrix ≡ record { size = 3; entries = fives }) }
{
    Ok(Matrix::new(3, Vec::from_array(alloc, FIVES)?))
}

/// The profile.
fn profile(alloc: Global) -> Result<Profile, NoMemory>
    ensures { IfOk result (λ profile. profile ≡ record { distances = record { size = 3; entries = fives }; durations = record { size = 3; entries = fives } }) }
{
    Ok(Profile {
        distances: matrix(alloc)?,
        durations: matrix(alloc)?,
    })
}

/// The problem.
fn problem(alloc: Global) -> Result<Problem, NoMemory>
    ensures { IfOk result (λ problem. problem ≡ two_trips) }
{
    let places = vec![in alloc; ORIGIN, ORIGIN, ORIGIN]?;
    let depots = vec![in alloc; DEPOT]?;
    let clients = vec![in alloc; EARLY, LATE]?;
    let types = vec![in alloc; vehicle(alloc)?]?;
    let profiles = vec![in alloc; profile(alloc)?]?;
    Ok(Problem {
        places: PlaceTable::from_vec(places),
        depots: DepotList::from_vec(depots),
        clients: ClientList::from_vec(clients),
        types: TypeList::from_vec(types),
        profiles: ProfileList::from_vec(profiles),
        groups: GroupList::from_vec(Vec::new(alloc)),
    })
}

/// The problem, ready to be worked on.
pub fn problem_of_two_trips(alloc: Global) -> Result<ProblemData, NoMemory>
    ensures { IfOk result (λ given. given ≡ two_trips) }
{
    ProblemData::new(alloc, problem(alloc)?)
}
