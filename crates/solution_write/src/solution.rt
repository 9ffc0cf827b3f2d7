//! The lines of all used vehicles, and the cost's.
ghost use Rattle.std.specs.Prelude.{◌≡◌, ◌+◌, ◌<◌, ◌^◌, ◌++◌, [], ◌∷◌, IfOk, OnOk, length, string_bytes};
ghost use Rattle.problem_data.specs.Places.{vehicle_count};
ghost use Rattle.vrp_texts.specs.Printed.{cost_line, route_lines_from, solution_text, used_by_type};
ghost use Rattle.solution_write.specs.inside.Lines.{used_of_type};

use crate::route::push_route;
use problem_data::{NoMemory, Problem, Solution, Visit, VisitList, is_used};
use std::alloc::{AllocError, Global};
use std::fmt::Write;

/// Adds the vehicle's line, where the vehicle is used, and says how many lines there are then. `written` is how many there were.
fn push_if_used(
    text: &mut String,
    problem: &Problem,
    written: usize,
    type_number: usize,
    visits: &[Visit],
) -> Result<usize, AllocError>
    requires number { written + 1 < 2 ^ 64 }
    requires type_number { type_number < length problem.now.types }
    ensures text { OnOk result (string_bytes text.new ≡ string_bytes text.old ++ route_lines_from problem.now (written + 1) (used_of_type type_number (visits.now ∷ []))) }
    ensures count { IfOk result (λ count. count ≡ written + length (used_of_type type_number (visits.now ∷ []))) }
{
    if is_used(visits) {
        push_route(text, problem, written + 1, type_number, visits)?;
        Ok(written + 1)
    } else {
        Ok(written)
    }
}

/// Adds the lines of the used ones among some vehicles of one type, and says how many lines there are then. `written` is how many
/// there were.
fn push_routes_of_type(
    text: &mut String,
    problem: &Problem,
    written: usize,
    type_number: usize,
    routes: &[VisitList],
) -> Result<usize, AllocError>
    requires numbers { written + length routes.now < 2 ^ 64 }
    requires type_number { type_number < length problem.now.types }
    ensures text { OnOk result (string_bytes text.new ≡ string_bytes text.old ++ route_lines_from problem.now (written + 1) (used_of_type type_number routes.now)) }
    ensures count { IfOk result (λ count. count ≡ written + length (used_of_type type_number routes.now)) }
{
    let mut count = written;
    for visits in routes {
        count = push_if_used(text, problem, count, type_number, visits.items())?;
    }
    Ok(count)
}

/// Adds the lines of all used vehicles. Vehicles stand type by type.
fn push_routes(text: &mut String, problem: &Problem, routes: &[VisitList]) -> Result<(), AllocError>
    requires { length routes.now ≡ vehicle_count problem.now }
    ensures { OnOk result (string_bytes text.new ≡ string_bytes text.old ++ route_lines_from problem.now 1 (used_by_type problem.now routes.now)) }
{
    let mut written = 0;
    let mut left = routes;
    for (type_number, vehicle_type) in problem.types.items().iter().enumerate() {
        let (of_type, rest) = left.split_at(vehicle_type.count as usize);
        written = push_routes_of_type(text, problem, written, type_number, of_type)?;
        left = rest;
    }
    Ok(())
}

/// Adds the line of the cost.
fn push_cost(text: &mut String, cost: i128) -> Result<(), AllocError>
    ensures { OnOk result (string_bytes text.new ≡ string_bytes text.old ++ cost_line cost) }
{
    write!(text, "Cost {cost}\n")
}

/// The text of a plan with its cost, in the form of CVRPLIB's solution files.
///
/// A used vehicle has a line `Route #k:`, where k counts the used vehicles from 1, and then, each after a space, `T` and its type's
/// number from 1, where the problem has more than one type, and its visits: a client's place, or `|` and a depot's place for a
/// reload. The last line is `Cost` and the cost. The plan has one list for each vehicle. Takes time linear in the text and in the
/// vehicles; fails only where memory runs out.
pub fn write_solution(
    alloc: Global,
    problem: &Problem,
    solution: &Solution,
    cost: i128,
) -> Result<Vec<u8>, NoMemory>
    requires lists { length solution.now.routes ≡ vehicle_count problem.now }
    ensures { IfOk result (λ text. text.items ≡ solution_text problem.now solution.now.routes cost) }
{
    let mut text = String::new(alloc);
    push_routes(&mut text, problem, solution.routes.items())?;
    push_cost(&mut text, cost)?;
    Ok(text.into_bytes())
}
