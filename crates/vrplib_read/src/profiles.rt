//! The profiles: the legs of all nodes times factors of distance and duration.
ghost use Rattle.std.specs.Prelude.{◌≡◌, ◌*◌, ◌/◌, ◌≤◌, All, IfOk, MatchOption, None, Some, if◌then◌else◌, false, length, map, true};
ghost use Rattle.std.specs.List.{list_any};
ghost use Rattle.problem_data.specs.Valid.{IsValidPlace};
ghost use Rattle.vrplib_model.specs.Entries.{coordinates, nodes};
ghost use Rattle.vrplib_model.specs.inside.FaultlessRows.{IsProfileRow};
ghost use Rattle.vrplib_model.specs.Legs.{profiles};
ghost use Rattle.vrplib_read.specs.inside.OfText.{OfText, known_nodes, is_long, scaled, scaled_profile};
ghost use Rattle.vrplib_model.specs.WholeText.{has_long_leg};

use crate::entries::{node_count, number_at};
use crate::legs::base_legs;
use crate::reading::Reading;
use problem_data::{LARGEST_LEG, Matrix, Place, Profile};
use std::alloc::{AllocError, Global};
use vrplib_model::Section;
use vrplib_rows::Rows;

/// A leg times a factor, in thousandths, cut; or none, where it is too long.
fn scaled_leg(leg: u32, factor: u64) -> Option<u32>
    requires { factor ≤ 10000 }
    ensures { result ≡ (if is_long (leg * factor / 1000) then None else Some (leg * factor / 1000)) }
{
    let scaled = leg as u64 * factor / 1000;
    if scaled > LARGEST_LEG {
        None
    } else {
        Some(scaled as u32)
    }
}

/// Legs times a factor, in thousandths, cut; or none, where one is too long.
fn scaled_legs(alloc: Global, base: &[u32], factor: u64) -> Result<Option<Vec<u32>>, AllocError>
    requires { factor ≤ 10000 }
    ensures { IfOk result (λ made. MatchOption made (list_any is_long (scaled factor base.now) ≡ true) (λ legs. (legs.items ≡ scaled factor base.now) × (list_any is_long (scaled factor base.now) ≡ false))) }
{
    let mut legs = Vec::with_capacity(alloc, base.len())?;
    for leg in base {
        match scaled_leg(*leg, factor) {
            Some(scaled) => legs.push(scaled)?,
            None => return Ok(None),
        }
    }
    Ok(Some(legs))
}

/// The profile that a row of factors gives over base legs; or none, where a leg is too long.
fn scaled_profile(
    alloc: Global,
    size: u32,
    base: &[u32],
    row: &[i64],
) -> Result<Option<Profile>, AllocError>
    requires row { IsProfileRow row.now }
    requires size { length base.now ≡ size * size }
    ensures { IfOk result (λ made. MatchOption made (has_long_leg (scaled_profile size base.now row.now) ≡ true) (λ profile. (profile ≡ scaled_profile size base.now row.now) × (has_long_leg (scaled_profile size base.now row.now) ≡ false))) }
{
    let Some(distances) = scaled_legs(alloc, base, number_at(row, 1))? else {
        return Ok(None);
    };
    let Some(durations) = scaled_legs(alloc, base, number_at(row, 2))? else {
        return Ok(None);
    };
    Ok(Some(Profile {
        distances: Matrix::new(size, distances),
        durations: Matrix::new(size, durations),
    }))
}

/// The profiles that rows of factors give over base legs; or none, where a leg is too long.
fn profiles_in(
    alloc: Global,
    size: u32,
    base: &[u32],
    rows: &Rows,
) -> Result<Option<Vec<Profile>>, AllocError>
    requires rows { rows.now.section ≡ Section.Profile }
    requires size { length base.now ≡ size * size }
    ensures { IfOk result (λ made. MatchOption made (list_any has_long_leg (map (scaled_profile size base.now) rows.now.rows) ≡ true) (λ profiles. (profiles.items ≡ map (scaled_profile size base.now) rows.now.rows) × (list_any has_long_leg (map (scaled_profile size base.now) rows.now.rows) ≡ false))) }
{
    let count = rows.count();
    let mut profiles = Vec::with_capacity(alloc, count)?;
    for k in 0..count {
        match scaled_profile(alloc, size, base, rows.row(k))? {
            Some(profile) => profiles.push(profile)?,
            None => return Ok(None),
        }
    }
    Ok(Some(profiles))
}

/// The one profile where no row gives one: the base legs as distances and as durations.
fn only_profile(alloc: Global, size: u32, base: Vec<u32>) -> Result<Profile, AllocError>
    requires size { length base.items ≡ size * size }
    ensures { IfOk result (λ profile. profile ≡ record { distances = record { size = size; entries = base.items }; durations = record { size = size; entries = base.items } }) }
{
    let durations = base.as_slice().to_vec(alloc)?;
    Ok(Profile {
        distances: Matrix::new(size, base),
        durations: Matrix::new(size, durations),
    })
}

/// The profiles; or none, where a leg is too long. `places` is where each node lies.
pub(crate) fn profiles(
    alloc: Global,
    reading: &Reading,
    places: &[Place],
) -> Result<Option<Vec<Profile>>, AllocError>
    requires places { OfText reading.now (λ all. places.now ≡ map (coordinates reading.now.mode all) (nodes reading.now.mode all)) }
    requires valid { All IsValidPlace places.now }
    requires count { length places.now ≡ known_nodes reading.now }
    ensures { IfOk result (λ made. OfText reading.now (λ all. MatchOption made (list_any has_long_leg (profiles reading.now.mode all) ≡ true) (λ found. (found.items ≡ profiles reading.now.mode all) × (list_any has_long_leg (profiles reading.now.mode all) ≡ false)))) }
{
    let size = node_count(reading);
    let base = base_legs(alloc, reading, places)?;
    match reading.rows_of(Section::Profile) {
        Some(rows) => profiles_in(alloc, size, &base, rows),
        None => {
            let profile = only_profile(alloc, size, base)?;
            Ok(Some(vec![in alloc; profile]?))
        }
    }
}
