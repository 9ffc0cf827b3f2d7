//! A plan that is taken out of a list is forgotten by the others.
ghost use Rattle.std.specs.Prelude.{◌≡◌, ◌≤◌, length};
ghost use Rattle.genetic_model.specs.Fitness.{nearest};
ghost use Rattle.plan_differences.specs.Beside.{AreFlanks};
ghost use Rattle.compared_plans.specs.Compared.{AreComparedBy, plans_in};
ghost use Rattle.compared_plans.specs.inside.Numbers.{near_while_removing};

use crate::item::{ComparedPlan, forget};
use plan_differences::broken_between;
use problem_data::ProblemData;

/// Takes the numbers of a plan that stood at a place of a list out of those of all others. Condition: the others have their numbers with
/// one another and with it. Takes no memory.
pub(crate) fn forget_plan(
    given: &ProblemData,
    items: &mut [ComparedPlan],
    place: usize,
    gone: &ComparedPlan,
)
    requires place { place ≤ length items.old }
    requires flanks { AreFlanks given.now gone.now.plan.routes gone.now.flanks.items }
    requires compared { AreComparedBy given.now (near_while_removing given.now (plans_in items.old) gone.now.plan.routes place 0) items.old }
    ensures plans { plans_in items.new ≡ plans_in items.old }
    ensures compared { AreComparedBy given.now (nearest given.now (plans_in items.new)) items.new }
{
    for at in 0..items.len() {
        let broken = broken_between(given, items[at].flanks.as_slice(), gone.flanks.as_slice());
        forget(items, at, broken);
    }
}
