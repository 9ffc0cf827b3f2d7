//! The vehicle types that a text gives.
ghost use Rattle.std.specs.Prelude.{◌≡◌, ◌+◌, ◌<◌, IfOk, drop, map};
ghost use Rattle.std.specs.List.{list_all};
ghost use Rattle.problem_data.specs.Limits.{most_places};
ghost use Rattle.vrplib_model.specs.Rows.{nodes_of};
ghost use Rattle.vrplib_model.specs.Entries.{client_count, place_of};
ghost use Rattle.vrplib_model.specs.Fleet.{only_type, type_of_row, types};
ghost use Rattle.vrplib_model.specs.inside.FaultlessRows.{IsBetween, IsTypeRow};
ghost use Rattle.vrplib_model.specs.Numbers.{int_at, number_at};
ghost use Rattle.vrplib_read.specs.inside.OfText.{OfText, known_nodes};
ghost use Rattle.vrplib_model.specs.WholeText.{are_apart, has_missed_shift, has_wrong_reference, is_depot_place};

use crate::entries::{number_at, window};
use crate::groups::places_of;
use crate::reading::Reading;
use problem_data::{LARGEST, PlaceList, UNLIMITED, VehicleType, Window};
use std::alloc::{AllocError, Global};
use vrplib_model::Section;
use vrplib_rows::Rows;

/// A small number of a row.
fn small_number_at(row: &[i64], k: usize) -> u32
    requires { IsBetween 0 most_places (int_at k row.now) }
    ensures { result ≡ number_at k row.now }
{
    number_at(row, k) as u32
}

/// The place of a node of a row.
fn place_at(row: &[i64], k: usize) -> u32
    requires { IsBetween 1 most_places (int_at k row.now) }
    ensures { result ≡ place_of (number_at k row.now) }
{
    small_number_at(row, k) - 1
}

/// The places where a vehicle of the type may reload.
fn reload_depots(alloc: Global, row: &[i64]) -> Result<PlaceList, AllocError>
    requires { IsTypeRow most_places row.now }
    ensures { IfOk result (λ places. places ≡ map place_of (nodes_of (drop 14 row.now))) }
{
    Ok(PlaceList::from_vec(places_of(alloc, &row[14..])?))
}

/// The vehicle type that a row gives.
fn type_of_row(alloc: Global, row: &[i64]) -> Result<VehicleType, AllocError>
    requires { IsTypeRow most_places row.now }
    ensures { IfOk result (λ made. made ≡ type_of_row row.now) }
{
    Ok(VehicleType {
        count: small_number_at(row, 1),
        capacity: number_at(row, 2),
        start: place_at(row, 3),
        end: place_at(row, 4),
        fixed: number_at(row, 5),
        unit_distance: number_at(row, 6),
        unit_duration: number_at(row, 7),
        shift: Window {
            early: number_at(row, 8),
            late: number_at(row, 9),
        },
        max_duration: number_at(row, 10),
        max_distance: number_at(row, 11),
        profile: small_number_at(row, 12) - 1,
        reloads: small_number_at(row, 13),
        reload_depots: reload_depots(alloc, row)?,
    })
}

/// The vehicle types of rows of vehicle types.
fn types_in(alloc: Global, rows: &Rows) -> Result<Vec<VehicleType>, AllocError>
    requires { rows.now.section ≡ Section.VehicleTypes }
    ensures { IfOk result (λ types. types.items ≡ map type_of_row rows.now.rows) }
{
    let count = rows.count();
    let mut types = Vec::with_capacity(alloc, count)?;
    for k in 0..count {
        types.push(type_of_row(alloc, rows.row(k))?)?;
    }
    Ok(types)
}

/// The one type where no row gives one, by the keywords.
fn only_type(alloc: Global, reading: &Reading, clients: u32) -> VehicleType
    requires { OfText reading.now (λ all. client_count reading.now.mode all ≡ clients) }
    ensures { OfText reading.now (λ all. result ≡ only_type reading.now.mode all) }
{
    let keywords = &reading.keywords;
    VehicleType {
        count: keywords.vehicles.unwrap_or(clients),
        capacity: keywords.capacity.unwrap_or(LARGEST),
        start: 0,
        end: 0,
        fixed: 0,
        unit_distance: 1,
        unit_duration: 0,
        shift: Window {
            early: 0,
            late: LARGEST,
        },
        max_duration: keywords.max_duration.unwrap_or(UNLIMITED),
        max_distance: keywords.max_distance.unwrap_or(UNLIMITED),
        profile: 0,
        reloads: 0,
        reload_depots: PlaceList::from_vec(Vec::new(alloc)),
    }
}

/// The vehicle types; `clients` is the number of clients.
pub(crate) fn types(
    alloc: Global,
    reading: &Reading,
    clients: u32,
) -> Result<Vec<VehicleType>, AllocError>
    requires { OfText reading.now (λ all. client_count reading.now.mode all ≡ clients) }
    ensures { IfOk result (λ made. OfText reading.now (λ all. made.items ≡ types reading.now.mode all)) }
{
    match reading.rows_of(Section::VehicleTypes) {
        Some(rows) => types_in(alloc, rows),
        None => Ok(vec![in alloc; only_type(alloc, reading, clients)]?),
    }
}

/// Whether a type starts, ends or reloads at a place that is no depot, or drives by a profile that isn't there.
pub(crate) fn has_wrong_reference(depots: u32, profiles: usize, vehicle_type: &VehicleType) -> bool
    ensures { result ≡ has_wrong_reference depots profiles vehicle_type.now }
{
    let all_reloads = are_depots(depots, vehicle_type.reload_depots.items());
    !(vehicle_type.start < depots
        && vehicle_type.end < depots
        && all_reloads
        && (vehicle_type.profile as usize) < profiles)
}

/// Whether all places are depots.
fn are_depots(depots: u32, places: &[u32]) -> bool
    ensures { result ≡ list_all (is_depot_place depots) places.now }
{
    places.iter().all(|place| *place < depots)
}

/// Whether two windows have no moment in common.
fn are_apart(a: Window, b: Window) -> bool
    ensures { result ≡ are_apart a b }
{
    a.late.min(b.late) < a.early.max(b.early)
}

/// Whether the shift of a type doesn't meet the window of its start or of its end.
pub(crate) fn has_missed_shift(reading: &Reading, vehicle_type: &VehicleType) -> bool
    requires start { vehicle_type.now.start < known_nodes reading.now }
    requires end { vehicle_type.now.end < known_nodes reading.now }
    ensures { OfText reading.now (λ all. result ≡ has_missed_shift reading.now.mode all vehicle_type.now) }
{
    are_apart(vehicle_type.shift, window(reading, vehicle_type.start + 1))
        || are_apart(vehicle_type.shift, window(reading, vehicle_type.end + 1))
}
