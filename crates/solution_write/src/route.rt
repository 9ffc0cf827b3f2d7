//! The line of one vehicle.
ghost use Rattle.std.specs.Prelude.{◌≡◌, ◌+◌, ◌<◌, ◌++◌, OnOk, codes, decimal, flat_map, length, string_bytes};
ghost use Rattle.vrp_texts.specs.Printed.{route_line, spaced, token, type_token};

use problem_data::{Problem, Visit};
use std::alloc::AllocError;
use std::fmt::Write;

/// Adds a visit, after a space: a client's place, or `|` and a depot's place.
fn push_visit(text: &mut String, visit: Visit) -> Result<(), AllocError>
    ensures { OnOk result (string_bytes text.new ≡ string_bytes text.old ++ spaced (token visit)) }
{
    match visit {
        Visit::Client(place) => write!(text, " {place}"),
        Visit::Reload(depot) => write!(text, " |{depot}"),
    }
}

/// Adds the visits, in order.
fn push_visits(text: &mut String, visits: &[Visit]) -> Result<(), AllocError>
    ensures { OnOk result (string_bytes text.new ≡ string_bytes text.old ++ flat_map (λ visit. spaced (token visit)) visits.now) }
{
    for visit in visits {
        push_visit(text, *visit)?;
    }
    Ok(())
}

/// Adds the token of the vehicle's type, where the problem has more than one; types are numbered from 0, and their tokens from 1.
fn push_type(text: &mut String, problem: &Problem, type_number: usize) -> Result<(), AllocError>
    requires { type_number < length problem.now.types }
    ensures { OnOk result (string_bytes text.new ≡ string_bytes text.old ++ type_token problem.now type_number) }
{
    if problem.types.items().len() > 1 {
        let shown = type_number + 1;
        write!(text, " T{shown}")
    } else {
        Ok(())
    }
}

/// Adds the line of the used vehicle with this number, from 1, among the used ones.
pub fn push_route(
    text: &mut String,
    problem: &Problem,
    number: usize,
    type_number: usize,
    visits: &[Visit],
) -> Result<(), AllocError>
    requires { type_number < length problem.now.types }
    ensures { OnOk result (string_bytes text.new ≡ string_bytes text.old ++ route_line problem.now number (type_number, visits.now)) }
{
    write!(text, "Route #{number}:")?;
    push_type(text, problem, type_number)?;
    push_visits(text, visits)?;
    text.push('\n')
}
