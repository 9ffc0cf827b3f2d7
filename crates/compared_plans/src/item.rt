//! A plan of a list in which each is compared with each.
ghost use Rattle.std.specs.Prelude.{◌≡◌, ℕ, ◌<◌, Contains, List, length, nat_lt, slice_index_or};
ghost use Rattle.list_words.specs.Order.{put_in_order};
ghost use Rattle.problem_data.specs.declared.problem.Problem.{Problem};
ghost use Rattle.compared_plans.specs.Compared.{AreComparedBy, plans_in};
ghost use Rattle.compared_plans.specs.inside.Numbers.{with_numbers};
ghost use Rattle.compared_plans.specs.declared.item.ComparedPlan.{ComparedPlan as Item};

use plan_differences::Flanks;
use problem_data::Solution;
use sorted_numbers::{MOST_NUMBERS, SortedNumbers};

/// A plan, what stands beside its clients, and its numbers of broken pairs with each other plan of its list.
#[derive(Drop)]
pub struct ComparedPlan {
    pub(crate) plan: Solution,
    pub(crate) flanks: Vec<Flanks>,
    pub(crate) near: SortedNumbers,
}

/// Puts a number into those of an item. Condition: there is room.
pub(crate) fn note(items: &mut [ComparedPlan], at: usize, number: u32)
    requires at { at < length items.old }
    requires room { (d : Item) → length (slice_index_or items.old at d).near < MOST_NUMBERS }
    ensures plans { plans_in items.new ≡ plans_in items.old }
    ensures compared { (p : Problem) (near : ℕ → List ℕ) → AreComparedBy p near items.old → AreComparedBy p (with_numbers near at (put_in_order nat_lt number (near at))) items.new }
{
    items[at].near.insert(number);
}

/// Takes a number out of those of an item, once. Condition: it is there.
pub(crate) fn forget(items: &mut [ComparedPlan], at: usize, number: u32)
    requires at { at < length items.old }
    requires there { (d : Item) → Contains (slice_index_or items.old at d).near number }
    ensures plans { plans_in items.new ≡ plans_in items.old }
    ensures compared { (p : Problem) (near : ℕ → List ℕ) (rest : List ℕ) → AreComparedBy p near items.old → near at ≡ put_in_order nat_lt number rest → AreComparedBy p (with_numbers near at rest) items.new }
{
    items[at].near.remove(number);
}
