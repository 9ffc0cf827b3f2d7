//! The reader.
ghost use Rattle.std.specs.Prelude.{◌≡◌, [], ◌∷◌, IfErr, IfOk, None, Ok};
ghost use Rattle.std.specs.Str.Lines.{lines};
ghost use Rattle.vrplib_model.specs.LineKinds.{is_end, line_of};
ghost use Rattle.vrplib_read.specs.Outcomes.{IsReading, RefusesAsRead};
ghost use Rattle.vrplib_model.specs.Reading.{first_fault, lines_onto};
ghost use Rattle.vrplib_read.specs.inside.Stands.{Stands};

use crate::read_fault::ReadFault;
use crate::reading::Reading;
use crate::whole::whole_answer;
use problem_data::Problem;
use std::alloc::{AllocError, Global};
use vrp_num::Rounding;
use vrplib_model::Refusal;
use vrplib_rows::{Line, line_of, next_line};

/// Whether a line of the text is `EOF`, which ends the reading.
fn is_end(text: &[u8]) -> bool
    ensures { result ≡ is_end (line_of text.now) }
{
    matches!(line_of(text), Line::EndOfFile)
}

/// The refusal at a text's first faulty line, the end standing for a line behind the last; the lines of a faultless text are kept.
fn read_lines(
    alloc: Global,
    reading: &mut Reading,
    text: &[u8],
) -> Result<Option<Refusal>, AllocError>
    requires { Stands reading.old.mode [] reading.old }
    ensures fault { IfOk result (λ refusal. refusal ≡ first_fault reading.old.mode [] (lines text.now)) }
    ensures kept { result ≡ Ok None → Stands reading.old.mode (lines_onto [] (lines text.now)) reading.new }
{
    let mut rest = text;
    let mut number: u64 = 1;
    while !rest.is_empty() {
        let (line, behind) = next_line(rest);
        if let Some(rule) = reading.read_line(alloc, line)? {
            return Ok(Some(Refusal { line: number, rule }));
        }
        if is_end(line) {
            return Ok(None);
        }
        rest = behind;
        number += 1;
    }
    match reading.end_fault() {
        Some(rule) => Ok(Some(Refusal { line: number, rule })),
        None => Ok(None),
    }
}

/// Reads the problem of an instance text (TSPLIB 95, VRPLIB), or names its first faulty line, from 1, and the first [`Rule`] that
/// this line breaks, in the order of the rules' tests. A fault of the text as a whole is named at line 0, and one at its end, where
/// a section has too few rows, at the number of lines plus one.
///
/// The text is lines of keywords with values, sections with rows of numbers, and `EOF`, which ends the reading and may be missing.
/// Read are the keywords `DIMENSION`, `EDGE_WEIGHT_TYPE` (`EUC_2D` or `EXPLICIT`), `EDGE_WEIGHT_FORMAT` (`FULL_MATRIX`, `LOWER_ROW`
/// or `UPPER_ROW`), `CAPACITY`, `VEHICLES`, `SERVICE_TIME`, `MAX_DURATION` and `MAX_DISTANCE`, and the sections
/// `NODE_COORD_SECTION`, `DEMAND_SECTION`, `BACKHAUL_SECTION`, `TIME_WINDOW_SECTION`, `SERVICE_TIME_SECTION`,
/// `RELEASE_TIME_SECTION`, `PRIZE_SECTION`, `EDGE_WEIGHT_SECTION`, `DEPOT_SECTION`, `MUTUALLY_EXCLUSIVE_GROUP_SECTION`,
/// `PROFILE_SECTION` and `VEHICLE_TYPES_SECTION`; other keywords and sections are passed over. Numbers may have a point and an
/// exponent, and are rounded by the mode where they are distances or times.
///
/// A text has 2 to 2,048 nodes. The depots come first, and each other node is a client. What a section gives that isn't there is 0,
/// a window from 0 to 10^12, or no group; without vehicle types there is one, of as many vehicles as clients or as `VEHICLES` says.
///
/// [`ReadFault::NoMemory`] says that memory ran out; the text may then be a faulty one.
pub fn read_instance(alloc: Global, bytes: &[u8], mode: Rounding) -> Result<Problem, ReadFault>
    ensures accepted { IfOk result (IsReading mode bytes.now) }
    ensures refused { IfErr result (RefusesAsRead mode bytes.now) }
{
    let mut reading = Reading::new(alloc, mode);
    match read_lines(alloc, &mut reading, bytes)? {
        Some(refusal) => Err(ReadFault::Refused(refusal)),
        None => match whole_answer(alloc, &reading)? {
            Ok(problem) => Ok(problem),
            Err(rule) => Err(ReadFault::Refused(Refusal { line: 0, rule })),
        },
    }
}
