//! The limits of a problem, as the program's numbers. They are written nowhere else.
ghost use Rattle.std.specs.Prelude.{◌≡◌};
ghost use Rattle.problem_data.specs.Limits.{largest, largest_leg, largest_unit_cost, most_groups, most_places, most_profiles, most_reloads, most_types, most_vehicles, most_visits, unlimited};

/// The largest time, load, prize, fixed cost and maximum of a route; and the largest coordinate in millionths.
pub const LARGEST: u64 = 1_000_000_000_000;

/// A route's maximum where there is none.
pub const UNLIMITED: u64 = 1_000_000_000_000_000_000;

/// The longest leg, in distance and in duration.
pub const LARGEST_LEG: u64 = 4_000_000_000;

/// The largest cost of a unit of distance or of duration.
pub const LARGEST_UNIT_COST: u64 = 1_000_000;

/// The most places, depots and clients together.
pub const MOST_PLACES: u32 = 2_048;

/// The most vehicles, of all types together.
pub const MOST_VEHICLES: u32 = 2_048;

/// The most vehicle types.
pub const MOST_TYPES: u32 = 64;

/// The most profiles.
pub const MOST_PROFILES: u32 = 4;

/// The most groups.
pub const MOST_GROUPS: u32 = 1_024;

/// The most reloads of one vehicle.
pub const MOST_RELOADS: u32 = 32;

/// The most visits of one vehicle: all clients, and all reloads.
pub const MOST_VISITS: u32 = 2_079;

/// The program's numbers are those of the definitions.
pub fn limits_are_defined()
    ensures quantity { LARGEST ≡ largest }
    ensures none { UNLIMITED ≡ unlimited }
    ensures leg { LARGEST_LEG ≡ largest_leg }
    ensures unit_cost { LARGEST_UNIT_COST ≡ largest_unit_cost }
    ensures places { MOST_PLACES ≡ most_places }
    ensures vehicles { MOST_VEHICLES ≡ most_vehicles }
    ensures types { MOST_TYPES ≡ most_types }
    ensures profiles { MOST_PROFILES ≡ most_profiles }
    ensures groups { MOST_GROUPS ≡ most_groups }
    ensures reloads { MOST_RELOADS ≡ most_reloads }
    ensures visits { MOST_VISITS ≡ most_visits }
{}
