//! The best plan so far.
ghost use Rattle.std.specs.Prelude.{◌≡◌, ℕ, ◌≤ℤ◌, pos, IfOk, None, Option, Some, if◌then◌else◌, is_some};
ghost use Rattle.routing_model.specs.Best.{is_below_best};

use problem_data::{NoMemory, Solution};
use std::alloc::Global;
use std::marker::Model;

/// A plan, and what it costs.
#[derive(Drop)]
pub(crate) struct BestPlan {
    plan: Solution,
    cost: i128,
}

impl Model for BestPlan {
    ghost use Rattle.std.specs.Prelude.{◌≤ℤ◌, nat_abs, pos};
    ghost use Rattle.routing_model.specs.Best.{Best};

    ghost Value = { Best };

    ghost view = { λ a. record { routes = a.plan.routes; cost = nat_abs a.cost } };

    ghost invariant = { λ a. pos 0 ≤ℤ a.cost };
}

impl BestPlan {
    /// The plan.
    pub(crate) fn plan(&self) -> &Solution
        ensures { result.now.routes ≡ self.now.routes }
    {
        &self.plan
    }

    /// What it costs.
    pub(crate) fn cost(&self) -> i128
        ensures { result ≡ pos self.now.cost }
    {
        self.cost
    }
}

/// Whether a cost is less than that of the best plan, or there is none.
fn is_below_best(cost: i128, best: &Option<BestPlan>) -> bool
    ensures { (n : ℕ) → cost ≡ pos n → result ≡ is_below_best n best.now }
{
    match best {
        Some(best) => cost < best.cost(),
        None => true,
    }
}

/// A copy of a plan with its cost, where that is less than the best plan's or there is none. Condition: it isn't below 0. Refused only
/// where memory runs out.
pub(crate) fn better_than(
    alloc: Global,
    best: &Option<BestPlan>,
    plan: &Solution,
    cost: i128,
) -> Result<Option<BestPlan>, NoMemory>
    requires { pos 0 ≤ℤ cost }
    ensures { (n : ℕ) → cost ≡ pos n → IfOk result (λ better. better ≡ (if is_below_best n best.now then Some (record { routes = plan.now.routes; cost = n }) else None)) }
{
    if !is_below_best(cost, best) {
        return Ok(None);
    }
    let plan = plan.copy(alloc)?;
    Ok(Some(BestPlan { plan, cost }))
}

/// Puts a better plan, if there is one, in place of the best. Answers whether there is one.
pub(crate) fn replace(best: &mut Option<BestPlan>, better: Option<BestPlan>) -> bool
    ensures replaced { result ≡ is_some better }
    ensures best { best.new ≡ (if is_some better then better else best.old) }
{
    let replaced = better.is_some();
    if replaced {
        *best = better;
    }
    replaced
}
