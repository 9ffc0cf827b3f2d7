//! Routes of lists, and lists of routes.
ghost use Rattle.std.specs.Prelude.{◌≡◌, ◌+◌, ◌*◌, ◌<◌, ◌++◌, All, IfOk, List, OnOk, flat_map, length, sum_by};
ghost use Rattle.problem_data.specs.declared.visit.Visit.{Visit};
ghost use Rattle.problem_data.specs.Places.{vehicle_count};
ghost use Rattle.routing_model.specs.Listed.{IsListed};
ghost use Rattle.gain_model.specs.Gains.{IsPartWithin, part_visits};
ghost use Rattle.plan_tables.specs.Routes.{AreRoutesOf, lists_of};

use gain_model::Part;
use problem_data::{NoMemory, ProblemData, Reads, Steps, Visit, VisitList};
use route_cache::Route;
use std::alloc::Global;

/// The route of each vehicle, by a plan's lists. Condition: there is one list for each vehicle, and each is one that a vehicle can
/// have. Refused only where memory runs out.
pub fn routes_of<'d>(
    alloc: Global,
    given: &'d ProblemData,
    lists: &[VisitList],
    reads: &mut Steps<Reads>,
) -> Result<Vec<Route<'d>>, NoMemory>
    requires one_list_each { length lists.now ≡ vehicle_count given.now }
    requires listed { All (IsListed given.now) lists.now }
    ensures { IfOk result (λ routes. AreRoutesOf given.now lists.now routes.items) }
{
    given.vehicles();
    let mut routes = Vec::new(alloc);
    for (vehicle, visits) in lists.iter().enumerate() {
        routes.push(Route::with_visits(alloc, given, vehicle as u32, visits.items(), reads)?)?;
    }
    Ok(routes)
}

/// The list of each route. Refused only where memory runs out.
pub fn lists_in(alloc: Global, routes: &[Route<'_>]) -> Result<Vec<VisitList>, NoMemory>
    ensures { IfOk result (λ lists. lists.items ≡ lists_of routes.now) }
{
    let mut lists = Vec::new(alloc);
    for route in routes {
        let visits = Vec::from_slice(alloc, route.visits())?;
        lists.push(VisitList::from_vec(visits))?;
    }
    Ok(lists)
}

/// Appends the visits that a part names.
fn append(list: &mut Vec<Visit>, routes: &[Route<'_>], part: Part) -> Result<(), NoMemory>
    requires { IsPartWithin (lists_of routes.now) part }
    ensures { OnOk result (list.new.items ≡ list.old.items ++ part_visits (lists_of routes.now) part) }
{
    match part {
        Part::Run {
            vehicle,
            first,
            end,
        } => {
            let route = &routes[vehicle as usize];
            list.extend_from_slice(&route.visits()[first as usize..end as usize])?;
        }
        Part::Client(place) => list.push(Visit::Client(place))?,
        Part::Reload(depot) => list.push(Visit::Reload(depot))?,
    }
    Ok(())
}

/// The list that parts name, one after the other. Condition: each part is within the lists of the routes. Refused only where memory
/// runs out.
pub fn joined(alloc: Global, routes: &[Route<'_>], parts: &[Part]) -> Result<Vec<Visit>, NoMemory>
    requires { All (IsPartWithin (lists_of routes.now)) parts.now }
    ensures { IfOk result (λ list. list.items ≡ flat_map (part_visits (lists_of routes.now)) parts.now) }
{
    let mut list = Vec::new(alloc);
    for part in parts {
        append(&mut list, routes, *part)?;
    }
    Ok(list)
}
