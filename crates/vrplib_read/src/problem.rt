//! The problem that a faultless text means.
ghost use Rattle.std.specs.Prelude.{◌≡◌, ◌≤◌, IfOk, map};
ghost use Rattle.vrplib_model.specs.Entries.{coordinates, counted, depot_nodes, nodes};
ghost use Rattle.vrplib_model.specs.Fleet.{types};
ghost use Rattle.vrplib_model.specs.Legs.{profiles};
ghost use Rattle.vrplib_model.specs.Meaning.{groups, problem_of};
ghost use Rattle.vrplib_read.specs.inside.OfText.{OfText, known_nodes};

use crate::entries::{clients, depots};
use crate::reading::Reading;
use problem_data::{
    ClientList, DepotList, GroupList, Place, PlaceList, PlaceTable, Problem, Profile, ProfileList,
    TypeList, VehicleType,
};
use std::alloc::{AllocError, Global};

/// The problem of a text whose depots are the first nodes of so many, from its places, vehicle types, profiles and groups.
pub(crate) fn problem(
    alloc: Global,
    reading: &Reading,
    depot_count: u32,
    place_vec: Vec<Place>,
    type_vec: Vec<VehicleType>,
    profile_vec: Vec<Profile>,
    group_vec: Vec<PlaceList>,
) -> Result<Problem, AllocError>
    requires count { depot_count ≤ known_nodes reading.now }
    requires depots { OfText reading.now (λ all. depot_nodes reading.now.mode all ≡ counted 1 depot_count) }
    requires places { OfText reading.now (λ all. place_vec.items ≡ map (coordinates reading.now.mode all) (nodes reading.now.mode all)) }
    requires types { OfText reading.now (λ all. type_vec.items ≡ types reading.now.mode all) }
    requires profiles { OfText reading.now (λ all. profile_vec.items ≡ profiles reading.now.mode all) }
    requires groups { OfText reading.now (λ all. group_vec.items ≡ groups reading.now.mode all) }
    ensures { IfOk result (λ problem. OfText reading.now (λ all. problem ≡ problem_of reading.now.mode all)) }
{
    let depots = depots(alloc, reading, depot_count)?;
    let clients = clients(alloc, reading, depot_count)?;
    Ok(Problem {
        places: PlaceTable::from_vec(place_vec),
        depots: DepotList::from_vec(depots),
        clients: ClientList::from_vec(clients),
        types: TypeList::from_vec(type_vec),
        profiles: ProfileList::from_vec(profile_vec),
        groups: GroupList::from_vec(group_vec),
    })
}
