//! Tests of the text of a plan.
ghost use Rattle.std.specs.Prelude.{◌≡◌, IfOk, length};
ghost use Rattle.problem_data.specs.Places.{vehicle_count};

use problem_data::{
    ClientList, DepotList, GroupList, NoMemory, PlaceList, PlaceTable, Problem, ProfileList,
    RouteList, Solution, TypeList, VehicleType, Visit, VisitList, Window,
};
use solution_write::write_solution;
use std::alloc::Global;

/// A type of this many vehicles, with any limits.
fn vehicles(alloc: Global, count: u32) -> VehicleType
    ensures { result.count ≡ count }
{
    VehicleType {
        count,
        capacity: 10,
        start: 0,
        end: 0,
        fixed: 0,
        unit_distance: 1,
        unit_duration: 0,
        shift: Window {
            early: 0,
            late: 100,
        },
        max_duration: 100,
        max_distance: 100,
        profile: 0,
        reloads: 1,
        reload_depots: PlaceList::from_vec(Vec::new(alloc)),
    }
}

/// The problem of these types; a plan's text depends on nothing else of it.
fn of_types(alloc: Global, types: Vec<VehicleType>) -> Problem
    ensures { result.types ≡ types.items }
{
    Problem {
        places: PlaceTable::from_vec(Vec::new(alloc)),
        depots: DepotList::from_vec(Vec::new(alloc)),
        clients: ClientList::from_vec(Vec::new(alloc)),
        types: TypeList::from_vec(types),
        profiles: ProfileList::from_vec(Vec::new(alloc)),
        groups: GroupList::from_vec(Vec::new(alloc)),
    }
}

/// One type of three vehicles.
fn three(alloc: Global) -> Result<Problem, NoMemory>
    ensures { IfOk result (λ p. vehicle_count p ≡ 3) }
{
    let types = Vec::from_array(alloc, [vehicles(alloc, 3)])?;
    Ok(of_types(alloc, types))
}

/// Two types of one vehicle each.
fn two_types(alloc: Global) -> Result<Problem, NoMemory>
    ensures { IfOk result (λ p. vehicle_count p ≡ 2) }
{
    let types = Vec::from_array(alloc, [vehicles(alloc, 1), vehicles(alloc, 1)])?;
    Ok(of_types(alloc, types))
}

/// One vehicle's list with one client.
fn only(alloc: Global, place: u32) -> Result<VisitList, NoMemory> {
    Ok(VisitList::from_vec(vec![in alloc; Visit::Client(place)]?))
}

/// The plan in which each of three vehicles visits one client.
fn one_client_each(alloc: Global) -> Result<Solution, NoMemory>
    ensures { IfOk result (λ s. length s.routes ≡ 3) }
{
    let routes = [only(alloc, 2)?, only(alloc, 1)?, only(alloc, 3)?];
    let routes = RouteList::from_vec(Vec::from_array(alloc, routes)?);
    Ok(Solution { routes })
}

/// The plan in which the second of two vehicles visits two clients, with a reload between them.
fn one_reload(alloc: Global) -> Result<Solution, NoMemory>
    ensures { IfOk result (λ s. length s.routes ≡ 2) }
{
    let visits = vec![in alloc; Visit::Client(1), Visit::Reload(0), Visit::Client(2)]?;
    let routes = [
        VisitList::from_vec(Vec::new(alloc)),
        VisitList::from_vec(visits),
    ];
    let routes = RouteList::from_vec(Vec::from_array(alloc, routes)?);
    Ok(Solution { routes })
}

#[test]
fn writes_a_line_for_each_vehicle(rt: HostRuntime) -> Result<(), NoMemory> {
    let alloc = rt.alloc();
    let text = write_solution(alloc, &three(alloc)?, &one_client_each(alloc)?, 34)?;
    let want = b"Route #1: 2\nRoute #2: 1\nRoute #3: 3\nCost 34\n";
    assert_eq!(rt; text.as_slice(), want.as_slice());
    Ok(())
}

#[test]
fn writes_types_and_reloads_of_used_vehicles(rt: HostRuntime) -> Result<(), NoMemory> {
    let alloc = rt.alloc();
    let text = write_solution(alloc, &two_types(alloc)?, &one_reload(alloc)?, 40)?;
    let want = b"Route #1: T2 1 |0 2\nCost 40\n";
    assert_eq!(rt; text.as_slice(), want.as_slice());
    Ok(())
}
