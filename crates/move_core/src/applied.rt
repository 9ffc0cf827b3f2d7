//! Applying gains: all memory is taken first, and then the new routes go into their places.
ghost use Rattle.std.specs.Prelude.{◌≡◌, OnErr, OnOk};
ghost use Rattle.problem_data.specs.Reads.{RoseAtMost};
ghost use Rattle.gain_model.specs.Gains.{MayBeApplied, made};
ghost use Rattle.gain_model.specs.RouteReads.{apply_reads};
ghost use Rattle.plan_tables.specs.Routes.{lists_of};
ghost use Rattle.move_core.specs.inside.Searches.{IsKeptPlan};

use crate::new_routes::made_routes;
use penalty_cost::Gain;
use plan_tables::{PlanTables, install};
use problem_data::{NoMemory, ProblemData, Reads, Steps};
use route_cache::Route;
use routing_model::Weights;
use std::alloc::Global;

/// Makes the change of a gain in the routes and in what is kept beside them. All memory is taken first: where it runs out, nothing
/// changes.
pub(crate) fn change<'d>(
    alloc: Global,
    given: &'d ProblemData,
    weights: Weights,
    routes: &mut Vec<Route<'d>>,
    kept: &mut PlanTables,
    gain: &Gain,
    reads: &mut Steps<Reads>,
) -> Result<(), NoMemory>
    requires plan { IsKeptPlan given.now weights routes.old.items kept.old }
    requires gain { MayBeApplied given.now weights (lists_of routes.old.items) gain.now }
    ensures lists { OnOk result (lists_of routes.new.items ≡ made gain.now (lists_of routes.old.items)) }
    ensures plan { OnOk result (IsKeptPlan given.now weights routes.new.items kept.new) }
    ensures err_routes { OnErr result (routes.new ≡ routes.old) }
    ensures err_kept { OnErr result (kept.new ≡ kept.old) }
    ensures reads { RoseAtMost (apply_reads (lists_of routes.old.items) gain.now) reads.old reads.new }
{
    let (route, other) = made_routes(alloc, given, routes.as_slice(), gain, reads)?;
    install(given, weights, routes, kept, route, other);
    Ok(())
}
