//! Sets of groups, as a mark for each.
ghost use Rattle.std.specs.Prelude.{◌≡◌, ◌++◌, ℕ, IsTrue, List, length};
ghost use Rattle.std.specs.List.{list_all};
ghost use Rattle.routing_model.specs.Lawful.{names_place};
ghost use Rattle.routing_model.specs.Routes.{clients_of};
ghost use Rattle.exchange_children.specs.inside.Clashing.{AreGroupMarks, group_marked};

use problem_data::{ProblemData, Visit};

/// Marks the group of a visit's client, if it is in one.
fn mark_group(given: &ProblemData, marks: &mut [bool], visit: Visit)
    requires groups { length marks.old ≡ length given.now.groups }
    requires named { IsTrue (names_place given.now visit) }
    ensures { marks.new ≡ group_marked given.now marks.old visit }
{
    given.validity();
    let Visit::Client(place) = visit else {
        return;
    };
    if let Some(group) = given.client(place).group {
        marks[group as usize] = true;
    }
}

/// Marks the groups of a list's clients. Condition: the list names existing places, and there is a mark for each group.
pub(crate) fn mark_groups(given: &ProblemData, marks: &mut [bool], visits: &[Visit])
    requires groups { length marks.old ≡ length given.now.groups }
    requires named { IsTrue (list_all (names_place given.now) visits.now) }
    ensures length { length marks.new ≡ length marks.old }
    ensures marks { (clients : List ℕ) → AreGroupMarks given.now marks.old clients → AreGroupMarks given.now marks.new (clients ++ clients_of visits.now) }
{
    for visit in visits {
        mark_group(given, marks, *visit);
    }
}
