//! What the definitions say of themselves.
ghost use Rattle.segments.specs.Bounds.{LoadsAreBounded, MergedDurationsAreBounded, ReleasedDurationsAreBounded};

/// What two runs take, one behind the other, is at least what both take and the leg between them, and the warp at least both warps.
/// A release keeps the duration, and takes nothing off the warp.
pub fn durations_are_at_least_those_of_their_parts()
    ensures merged { MergedDurationsAreBounded }
    ensures released { ReleasedDurationsAreBounded }
{}

/// A trip's load is at least all its deliveries, and at least all its pickups.
pub fn loads_are_at_least_deliveries_and_pickups()
    ensures { LoadsAreBounded }
{}
