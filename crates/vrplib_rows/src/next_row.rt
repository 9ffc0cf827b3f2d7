//! The fields of a section's next row.
ghost use Rattle.std.specs.Prelude.{◌≡◌, ℕ, ◌-◌, ◌==◌, ◌<◌, if◌then◌else◌, List, ℤ, Some, length, slice_get};
ghost use Rattle.problem_data.specs.Limits.{largest, most_vehicles};
ghost use Rattle.vrplib_model.specs.Numbers.{IsHeldField};
ghost use Rattle.vrplib_model.specs.Rows.{fields, vehicle_count};
ghost use Rattle.vrplib_model.specs.declared.section.Section.TheVariants.{VehicleTypes as vehicle_types_section};
ghost use Rattle.vrplib_rows.specs.inside.NextRows.{Follows};

use problem_data::{
    LARGEST, LARGEST_LEG, LARGEST_UNIT_COST, MOST_PROFILES, MOST_RELOADS, UNLIMITED,
};
use vrplib_model::{Field, Section};

/// The largest factor of a profile, in thousandths.
const MOST_FACTOR: u64 = 10_000;

/// The row that comes next in a section.
#[derive(Clone, Copy)]
pub(crate) struct NextRow {
    pub section: Section,
    /// The row's number, from 1.
    pub number: u64,
    /// How many vehicles the types above it leave.
    pub vehicles_left: u64,
}

impl NextRow {
    /// The row's k-th field, from 0.
    pub(crate) fn field(&self, k: usize) -> Field
        ensures field { (rows : List (List ℤ)) (n : ℕ) → Follows self.now rows → k < length (fields self.now.section rows n)
            → slice_get (fields self.now.section rows n) k ≡ Some result }
        ensures held { IsHeldField result }
    {
        match self.section {
            Section::NodeCoord => node_or(k, Field::Coordinate),
            Section::Demand => node_or(k, Field::Whole(LARGEST)),
            Section::Backhaul => node_or(k, Field::Whole(LARGEST)),
            Section::TimeWindow => node_or(k, Field::Rounded(LARGEST)),
            Section::ServiceTime => node_or(k, Field::Rounded(LARGEST)),
            Section::ReleaseTime => node_or(k, Field::Rounded(LARGEST)),
            Section::Prize => node_or(k, Field::Rounded(LARGEST)),
            Section::EdgeWeight => Field::Rounded(LARGEST_LEG),
            Section::Depot => Field::NodeOrEnd,
            Section::Group => Field::Number,
            Section::Profile => profile_field(k, self.number),
            Section::VehicleTypes => vehicle_field(k, self.vehicles_left),
        }
    }
}

/// The node's number, and behind it the other field.
fn node_or(k: usize, other: Field) -> Field
    requires { IsHeldField other }
    ensures field { result ≡ (if k == 0 then Field.Number else other) }
    ensures held { IsHeldField result }
{
    if k == 0 { Field::Number } else { other }
}

/// The k-th field of a profile's row.
fn profile_field(k: usize, number: u64) -> Field
    ensures field { result ≡ (if k == 0 then Field.Exactly number else Field.Whole 10000) }
    ensures held { IsHeldField result }
{
    if k == 0 {
        Field::Exactly(number)
    } else {
        Field::Whole(MOST_FACTOR)
    }
}

/// The k-th field of a vehicle type's row: type, count, capacity, start, end, the fixed cost and the unit costs, the shift, the two
/// maxima, the profile, the reloads, and the nodes of reload depots.
fn vehicle_field(k: usize, vehicles_left: u64) -> Field
    ensures field { (rows : List (List ℤ)) (n : ℕ) → vehicles_left ≡ most_vehicles - vehicle_count rows → k < length (fields vehicle_types_section rows n)
        → slice_get (fields vehicle_types_section rows n) k ≡ Some result }
    ensures held { IsHeldField result }
{
    match k {
        1 => Field::Between(1, vehicles_left),
        2 => Field::Whole(LARGEST),
        5 | 8 => Field::Rounded(LARGEST),
        6 | 7 => Field::Whole(LARGEST_UNIT_COST),
        9 => Field::RoundedOr(LARGEST, LARGEST),
        10 | 11 => Field::RoundedOr(LARGEST, UNLIMITED),
        12 => Field::Between(1, u64::from(MOST_PROFILES)),
        13 => Field::Whole(u64::from(MOST_RELOADS)),
        _ => Field::Number,
    }
}
