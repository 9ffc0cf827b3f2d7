//! Plans that equal earlier ones.
ghost use Rattle.std.specs.Prelude.{◌≡◌, ◌<◌, ◌≤◌, filter, IfSome, length};
ghost use Rattle.std.specs.List.{last_or};
ghost use Rattle.list_words.specs.Lists.{places_of};
ghost use Rattle.routing_model.specs.Routes.{is_same_list, is_same_plan};
ghost use Rattle.genetic_model.specs.Population.{is_duplicate};
ghost use Rattle.compared_plans.specs.Compared.{plans_in};

use crate::item::ComparedPlan;
use problem_data::{Visit, VisitList};

/// Whether two lists have the same visits.
fn is_same_list(a: &[Visit], b: &[Visit]) -> bool
    ensures { result ≡ is_same_list a.now b.now }
{
    a == b
}

/// Whether two plans have the same lists.
fn is_same_plan(a: &[VisitList], b: &[VisitList]) -> bool
    ensures { result ≡ is_same_plan a.now b.now }
{
    if a.len() != b.len() {
        return false;
    }
    for vehicle in 0..a.len() {
        if !is_same_list(a[vehicle].items(), b[vehicle].items()) {
            return false;
        }
    }
    true
}

/// Whether the plan at a place equals an earlier one.
fn is_duplicate(items: &[ComparedPlan], place: usize) -> bool
    requires { place < length items.now }
    ensures { result ≡ is_duplicate (plans_in items.now) place }
{
    let routes = items[place].plan.routes.items();
    for earlier in 0..place {
        if is_same_plan(routes, items[earlier].plan.routes.items()) {
            return true;
        }
    }
    false
}

/// The last place whose plan equals an earlier one, if there is one.
pub(crate) fn last_duplicate(items: &[ComparedPlan]) -> Option<usize>
    ensures last { result ≡ last_or None (filter (is_duplicate (plans_in items.now)) (places_of (plans_in items.now))) }
    ensures there { IfSome result (λ place. place < length (plans_in items.now)) }
{
    let mut last = None;
    for place in 0..items.len() {
        if is_duplicate(items, place) {
            last = Some(place);
        }
    }
    last
}
