//! The faults of a text as a whole, in their order, and the problem of a text that has none.
ghost use Rattle.std.specs.Prelude.{◌≡◌, ◌≤◌, ◌<◌, [], ◌∷◌, All, IfOk, IfNone, MatchResult, None, Some, length, not};
ghost use Rattle.std.specs.List.{list_any};
ghost use Rattle.vrplib_model.specs.Checks.{broken_if, first_of};
ghost use Rattle.vrplib_model.specs.Rows.{has_section};
ghost use Rattle.vrplib_model.specs.Legs.{profiles};
ghost use Rattle.vrplib_model.specs.Meaning.{problem_of};
ghost use Rattle.vrplib_read.specs.inside.OfText.{OfText, known_nodes, StartsWithin};
ghost use Rattle.vrplib_model.specs.WholeText.{has_missed_shift, has_wrong_reference, is_depot_place, missing_key, whole_fault};

use crate::depots::depot_count;
use crate::entries::{node_count, places};
use crate::fleet::{has_missed_shift, has_wrong_reference, types};
use crate::groups::groups;
use crate::problem::problem;
use crate::profiles::profiles;
use crate::reading::Reading;
use problem_data::{PlaceList, Problem, VehicleType};
use std::alloc::{AllocError, Global};
use vrplib_model::{Key, Rule, Section};
use vrplib_rows::WeightType;

/// Whether the text has a section.
fn has_section(reading: &Reading, section: Section) -> bool
    ensures { OfText reading.now (λ all. result ≡ has_section section all) }
{
    reading.rows_of(section).is_some()
}

/// What is missing where the text lacks a section.
fn missing_section(reading: &Reading, section: Section, key: Key) -> Option<Rule>
    ensures { OfText reading.now (λ all. result ≡ broken_if (not (has_section section all)) (Rule.Missing key)) }
{
    if has_section(reading, section) {
        None
    } else {
        Some(Rule::Missing(key))
    }
}

/// The first keyword or section that the text lacks.
fn missing_key(reading: &Reading) -> Option<Rule>
    ensures missing { OfText reading.now (λ all. result ≡ missing_key all) }
    ensures nodes { IfNone result (2 ≤ known_nodes reading.now) }
{
    match (reading.keywords.dimension, reading.keywords.weight_type) {
        (None, _) => Some(Rule::Missing(Key::Dimension)),
        (Some(_), None) => Some(Rule::Missing(Key::EdgeWeightType)),
        (Some(_), Some(WeightType::Euclidean)) => {
            missing_section(reading, Section::NodeCoord, Key::NodeCoordSection)
        }
        (Some(_), Some(WeightType::Explicit)) => {
            missing_section(reading, Section::EdgeWeight, Key::EdgeWeightSection)
        }
    }
}

/// How many profiles there are.
fn profile_count(reading: &Reading) -> usize
    ensures { OfText reading.now (λ all. result ≡ length (profiles reading.now.mode all)) }
{
    match reading.rows_of(Section::Profile) {
        Some(rows) => rows.count(),
        None => 1,
    }
}

/// Whether a type names a place that is no depot, or a profile that isn't there.
fn has_bad_vehicle(depots: u32, profiles: usize, types: &[VehicleType]) -> bool
    ensures { result ≡ list_any (has_wrong_reference depots profiles) types.now }
{
    types.iter().any(|vehicle_type| has_wrong_reference(depots, profiles, vehicle_type))
}

/// Whether a depot is among the places.
fn has_depot(depots: u32, places: &PlaceList) -> bool
    ensures { result ≡ list_any (is_depot_place depots) places.now }
{
    places.items().iter().any(|place| *place < depots)
}

/// Whether a depot is in a group.
fn has_bad_group(depots: u32, groups: &[PlaceList]) -> bool
    ensures { result ≡ list_any (list_any (is_depot_place depots)) groups.now }
{
    groups.iter().any(|places| has_depot(depots, places))
}

/// Whether the shift of a type doesn't meet the window of its start or of its end.
fn has_empty_window(reading: &Reading, types: &[VehicleType]) -> bool
    requires { All (StartsWithin (known_nodes reading.now)) types.now }
    ensures { OfText reading.now (λ all. result ≡ list_any (has_missed_shift reading.now.mode all) types.now) }
{
    for vehicle_type in types {
        if has_missed_shift(reading, vehicle_type) {
            return true;
        }
    }
    false
}

/// The first fault of vehicle types and groups.
fn fault_of_parts(
    reading: &Reading,
    depots: u32,
    types: &[VehicleType],
    groups: &[PlaceList],
) -> Option<Rule>
    requires { depots ≤ known_nodes reading.now }
    ensures { OfText reading.now (λ all. result ≡ first_of (
        broken_if (list_any (has_wrong_reference depots (length (profiles reading.now.mode all))) types.now) Rule.BadVehicle
        ∷ broken_if (list_any (list_any (is_depot_place depots)) groups.now) Rule.BadGroup
        ∷ broken_if (list_any (has_missed_shift reading.now.mode all) types.now) Rule.EmptyWindow
        ∷ [])) }
{
    if has_bad_vehicle(depots, profile_count(reading), types) {
        Some(Rule::BadVehicle)
    } else if has_bad_group(depots, groups) {
        Some(Rule::BadGroup)
    } else if has_empty_window(reading, types) {
        Some(Rule::EmptyWindow)
    } else {
        None
    }
}

/// The problem of a text whose lines are faultless, or the first fault of the text as a whole.
pub(crate) fn whole_answer(
    alloc: Global,
    reading: &Reading,
) -> Result<Result<Problem, Rule>, AllocError>
    ensures { IfOk result (λ answer. OfText reading.now (λ all. MatchResult answer
        (λ problem. (whole_fault reading.now.mode all ≡ None) × (problem ≡ problem_of reading.now.mode all))
        (λ rule. whole_fault reading.now.mode all ≡ Some rule))) }
{
    if let Some(rule) = missing_key(reading) {
        return Ok(Err(rule));
    }
    let Some(depots) = depot_count(reading) else {
        return Ok(Err(Rule::BadDepot));
    };
    let types = types(alloc, reading, node_count(reading) - depots)?;
    let groups = groups(alloc, reading)?;
    if let Some(rule) = fault_of_parts(reading, depots, &types, &groups) {
        return Ok(Err(rule));
    }
    let places = places(alloc, reading)?;
    let Some(profiles) = profiles(alloc, reading, &places)? else {
        return Ok(Err(Rule::Limit));
    };
    let problem = problem(alloc, reading, depots, places, types, profiles, groups)?;
    Ok(Ok(problem))
}
