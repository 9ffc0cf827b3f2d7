//! The legs between all nodes, by their coordinates (TSPLIB 95, EUC_2D) or as the text gives them (EXPLICIT).
ghost use Rattle.std.specs.Prelude.{◌≡◌, ◌≢◌, ◌*◌, ◌^◌, ◌≤◌, ◌<◌, ◌++◌, All, IfOk, OnOk, true, false, length, map};
ghost use Rattle.std.specs.List.{flat_map};
ghost use Rattle.problem_data.specs.Limits.{largest_leg, most_places};
ghost use Rattle.problem_data.specs.Valid.{IsValidPlace};
ghost use Rattle.vrplib_model.specs.Entries.{coordinates, counted, nodes};
ghost use Rattle.vrplib_model.specs.inside.FaultlessRows.{IsBetween};
ghost use Rattle.vrplib_model.specs.Numbers.{number_at};
ghost use Rattle.vrplib_model.specs.Values.{is_explicit};
ghost use Rattle.vrplib_model.specs.Legs.{base_leg, full_place, lower_place, upper_place};
ghost use Rattle.vrplib_read.specs.inside.OfText.{OfText, known_nodes, known_weights, place_by, place_leg, weight_leg};

use crate::entries::{node_count, number_at};
use crate::reading::Reading;
use problem_data::Place;
use std::alloc::{AllocError, Global};
use vrp_num::{Rounding, euclid};
use vrplib_model::Section;
use vrplib_rows::{Rows, WeightFormat, WeightType};

/// The distance of two places.
fn place_leg(mode: Rounding, a: &Place, b: &Place) -> u32
    requires a { IsValidPlace a.now }
    requires b { IsValidPlace b.now }
    ensures leg { result ≡ place_leg mode a.now b.now }
    ensures bound { result ≤ largest_leg }
{
    euclid(mode, (a.x, a.y), (b.x, b.y)) as u32
}

/// Adds the distances from one place to each.
fn push_distances(
    legs: &mut Vec<u32>,
    mode: Rounding,
    from: &Place,
    places: &[Place],
) -> Result<(), AllocError>
    requires from { IsValidPlace from.now }
    requires places { All IsValidPlace places.now }
    ensures { OnOk result (legs.new.items ≡ legs.old.items ++ map (place_leg mode from.now) places.now) }
{
    for to in places {
        legs.push(place_leg(mode, from, to))?;
    }
    Ok(())
}

/// The distances of all places from each, row by row.
fn distances(alloc: Global, mode: Rounding, places: &[Place]) -> Result<Vec<u32>, AllocError>
    requires count { length places.now ≤ most_places }
    requires places { All IsValidPlace places.now }
    ensures { IfOk result (λ legs. legs.items ≡ flat_map (λ a. map (place_leg mode a) places.now) places.now) }
{
    let mut legs = Vec::with_capacity(alloc, places.len() * places.len())?;
    for from in places {
        push_distances(&mut legs, mode, from, places)?;
    }
    Ok(legs)
}

/// Where a leg stands among the weights of a whole table, row by row.
fn full_place(nodes: u32, from: u32, to: u32) -> usize
    requires nodes { nodes ≤ most_places }
    requires from { (1 ≤ from) × (from ≤ nodes) }
    requires to { (1 ≤ to) × (to ≤ nodes) }
    ensures { result ≡ full_place nodes from to }
{
    (from as usize - 1) * nodes as usize + (to as usize - 1)
}

/// The same in the lower triangle without its diagonal.
fn lower_place(from: u32, to: u32) -> usize
    requires from { from ≤ most_places }
    requires to { (1 ≤ to) × (to < from) }
    ensures { result ≡ lower_place from to }
{
    (from as usize - 1) * (from as usize - 2) / 2 + (to as usize - 1)
}

/// The same in the upper triangle without its diagonal.
fn upper_place(nodes: u32, from: u32, to: u32) -> usize
    requires nodes { nodes ≤ most_places }
    requires from { (1 ≤ from) × (from < to) }
    requires to { to ≤ nodes }
    ensures { result ≡ upper_place nodes from to }
{
    (from as usize - 1) * (2 * nodes as usize - from as usize) / 2
        + (to as usize - from as usize - 1)
}

/// The same by the format; a triangle has one number for both directions.
fn weight_place(format: Option<WeightFormat>, nodes: u32, from: u32, to: u32) -> usize
    requires nodes { nodes ≤ most_places }
    requires from { (1 ≤ from) × (from ≤ nodes) }
    requires to { (1 ≤ to) × (to ≤ nodes) }
    requires differ { from ≢ to }
    ensures { result ≡ place_by format nodes from to }
{
    let first = from.min(to);
    let second = from.max(to);
    match format {
        Some(WeightFormat::FullMatrix) => full_place(nodes, from, to),
        Some(WeightFormat::LowerRow) => lower_place(second, first),
        _ => upper_place(nodes, first, second),
    }
}

/// The number at a place among the weights, or 0 where there is none.
fn weight_at(weights: &[i64], place: usize) -> u32
    requires { All (IsBetween 0 largest_leg) weights.now }
    ensures weight { result ≡ number_at place weights.now }
    ensures bound { result ≤ largest_leg }
{
    number_at(weights, place) as u32
}

/// The leg that the weights give.
fn weight_leg(format: Option<WeightFormat>, nodes: u32, weights: &[i64], from: u32, to: u32) -> u32
    requires nodes { nodes ≤ most_places }
    requires weights { All (IsBetween 0 largest_leg) weights.now }
    requires from { (1 ≤ from) × (from ≤ nodes) }
    requires to { (1 ≤ to) × (to ≤ nodes) }
    ensures { result ≡ weight_leg format nodes weights.now from to }
{
    if from == to {
        0
    } else {
        weight_at(weights, weight_place(format, nodes, from, to))
    }
}

/// Adds the legs from one node to each.
fn push_weights(
    legs: &mut Vec<u32>,
    format: Option<WeightFormat>,
    nodes: u32,
    weights: &[i64],
    from: u32,
) -> Result<(), AllocError>
    requires nodes { nodes ≤ most_places }
    requires weights { All (IsBetween 0 largest_leg) weights.now }
    requires from { (1 ≤ from) × (from ≤ nodes) }
    ensures { OnOk result (legs.new.items ≡ legs.old.items ++ map (weight_leg format nodes weights.now from) (counted 1 nodes)) }
{
    for before in 0..nodes {
        legs.push(weight_leg(format, nodes, weights, from, before + 1))?;
    }
    Ok(())
}

/// The legs that the weights give, row by row.
fn weight_legs(
    alloc: Global,
    format: Option<WeightFormat>,
    nodes: u32,
    weights: &[i64],
) -> Result<Vec<u32>, AllocError>
    requires nodes { nodes ≤ most_places }
    requires weights { All (IsBetween 0 largest_leg) weights.now }
    ensures { IfOk result (λ legs. legs.items ≡ flat_map (λ i. map (weight_leg format nodes weights.now i) (counted 1 nodes)) (counted 1 nodes)) }
{
    let mut legs = Vec::with_capacity(alloc, nodes as usize * nodes as usize)?;
    for before in 0..nodes {
        push_weights(&mut legs, format, nodes, weights, before + 1)?;
    }
    Ok(legs)
}

/// The numbers of the section of weights.
fn weights(reading: &Reading) -> &[i64]
    ensures weights { result.now ≡ known_weights reading.now }
    ensures bounds { All (IsBetween 0 largest_leg) result.now }
{
    match reading.rows_of(Section::EdgeWeight) {
        Some(rows) => weights_of(rows),
        None => &[],
    }
}

/// The weights in rows of weights.
fn weights_of(rows: &Rows) -> &[i64]
    requires { rows.now.section ≡ Section.EdgeWeight }
    ensures weights { result.now ≡ flat_map (λ row. row) rows.now.rows }
    ensures bounds { All (IsBetween 0 largest_leg) result.now }
{
    rows.numbers()
}

/// The legs of all nodes as the text gives them, row by row.
fn explicit_legs(alloc: Global, reading: &Reading) -> Result<Vec<u32>, AllocError>
    ensures legs { IfOk result (λ legs. OfText reading.now (λ all. is_explicit all ≡ true → legs.items ≡ flat_map (λ i. map (base_leg reading.now.mode all i) (nodes reading.now.mode all)) (nodes reading.now.mode all))) }
    ensures bound { IfOk result (λ legs. All (λ leg. leg ≤ largest_leg) legs.items) }
    ensures count { IfOk result (λ legs. length legs.items ≡ known_nodes reading.now * known_nodes reading.now) }
{
    weight_legs(
        alloc,
        reading.keywords.weight_format,
        node_count(reading),
        weights(reading),
    )
}

/// The distances of all nodes, row by row.
fn euclidean_legs(
    alloc: Global,
    reading: &Reading,
    places: &[Place],
) -> Result<Vec<u32>, AllocError>
    requires places { OfText reading.now (λ all. places.now ≡ map (coordinates reading.now.mode all) (nodes reading.now.mode all)) }
    requires valid { All IsValidPlace places.now }
    requires count { length places.now ≡ known_nodes reading.now }
    requires limit { known_nodes reading.now ≤ most_places }
    ensures legs { IfOk result (λ legs. OfText reading.now (λ all. is_explicit all ≡ false → legs.items ≡ flat_map (λ i. map (base_leg reading.now.mode all i) (nodes reading.now.mode all)) (nodes reading.now.mode all))) }
    ensures bound { IfOk result (λ legs. All (λ leg. leg ≤ largest_leg) legs.items) }
    ensures count { IfOk result (λ legs. length legs.items ≡ known_nodes reading.now * known_nodes reading.now) }
{
    distances(alloc, reading.mode, places)
}

/// Whether the text gives the legs.
fn is_explicit(reading: &Reading) -> bool
    ensures { OfText reading.now (λ all. result ≡ is_explicit all) }
{
    match reading.keywords.weight_type {
        Some(WeightType::Explicit) => true,
        _ => false,
    }
}

/// The legs of all nodes, row by row, before a profile's factors.
pub(crate) fn base_legs(
    alloc: Global,
    reading: &Reading,
    places: &[Place],
) -> Result<Vec<u32>, AllocError>
    requires places { OfText reading.now (λ all. places.now ≡ map (coordinates reading.now.mode all) (nodes reading.now.mode all)) }
    requires valid { All IsValidPlace places.now }
    requires count { length places.now ≡ known_nodes reading.now }
    requires limit { known_nodes reading.now ≤ most_places }
    ensures legs { IfOk result (λ legs. OfText reading.now (λ all. legs.items ≡ flat_map (λ i. map (base_leg reading.now.mode all i) (nodes reading.now.mode all)) (nodes reading.now.mode all))) }
    ensures bound { IfOk result (λ legs. All (λ leg. leg ≤ largest_leg) legs.items) }
    ensures count { IfOk result (λ legs. length legs.items ≡ known_nodes reading.now * known_nodes reading.now) }
{
    if is_explicit(reading) {
        explicit_legs(alloc, reading)
    } else {
        euclidean_legs(alloc, reading, places)
    }
}
