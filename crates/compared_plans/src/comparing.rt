//! The last plan of a list is compared with each other one.
ghost use Rattle.std.specs.Prelude.{◌≡◌, ◌+◌, ◌<◌, ◌≤◌, All, length};
ghost use Rattle.genetic_model.specs.BrokenPairs.{broken_pairs};
ghost use Rattle.genetic_model.specs.Fitness.{item_at, nearest};
ghost use Rattle.plan_differences.specs.Beside.{AreFlanks};
ghost use Rattle.compared_plans.specs.declared.item.ComparedPlan.{ComparedPlan as Item};
ghost use Rattle.compared_plans.specs.Compared.{AreComparedBy, plans_in};
ghost use Rattle.compared_plans.specs.inside.Numbers.{near_while_comparing};

use crate::item::{ComparedPlan, note};
use plan_differences::broken_between;
use problem_data::ProblemData;
use sorted_numbers::MOST_NUMBERS;

/// The number of broken pairs of two items. Condition: both keep what stands beside their clients.
fn broken_at(given: &ProblemData, items: &[ComparedPlan], one: usize, other: usize) -> u32
    requires one { one < length items.now }
    requires other { other < length items.now }
    requires beside { All (λ (item : Item). AreFlanks given.now item.plan.routes item.flanks.items) items.now }
    ensures { result ≡ broken_pairs given.now (item_at (plans_in items.now) one) (item_at (plans_in items.now) other) }
{
    let flanks = items[one].flanks.as_slice();
    broken_between(given, flanks, items[other].flanks.as_slice())
}

/// Compares the last plan with each other one. Conditions: it has no numbers yet, the others have theirs with one another, and there is
/// room. Takes no memory.
pub(crate) fn compare_last(given: &ProblemData, items: &mut [ComparedPlan], last: usize)
    requires last { length items.old ≡ last + 1 }
    requires few { last ≤ MOST_NUMBERS }
    requires compared { AreComparedBy given.now (near_while_comparing given.now (plans_in items.old) last 0) items.old }
    ensures plans { plans_in items.new ≡ plans_in items.old }
    ensures compared { AreComparedBy given.now (nearest given.now (plans_in items.new)) items.new }
{
    for at in 0..last {
        let broken = broken_at(given, items, at, last);
        note(items, at, broken);
        note(items, last, broken);
    }
}
