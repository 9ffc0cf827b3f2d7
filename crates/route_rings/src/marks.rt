//! Sets of clients, as a mark for each place.
ghost use Rattle.std.specs.Prelude.{◌≡◌, ◌++◌, ℕ, IsTrue, List, length};
ghost use Rattle.std.specs.List.{list_all};
ghost use Rattle.problem_data.specs.Places.{place_count};
ghost use Rattle.routing_model.specs.Lawful.{names_place};
ghost use Rattle.routing_model.specs.Routes.{clients_of};
ghost use Rattle.route_rings.specs.Marks.{AreMarks};
ghost use Rattle.route_rings.specs.inside.Marking.{marked};

use problem_data::{ProblemData, Visit};

/// Marks the client of a visit, if it is one.
fn mark_visit(marks: &mut [bool], visit: Visit)
    ensures { marks.new ≡ marked marks.old visit }
{
    if let Visit::Client(place) = visit {
        let place = place as usize;
        if place < marks.len() {
            marks[place] = true;
        }
    }
}

/// Marks the clients of a list. Condition: the list names existing places, and there is a mark for each place.
pub fn mark_clients(given: &ProblemData, marks: &mut [bool], visits: &[Visit])
    requires places { length marks.old ≡ place_count given.now }
    requires named { IsTrue (list_all (names_place given.now) visits.now) }
    ensures length { length marks.new ≡ length marks.old }
    ensures marks { (clients : List ℕ) → AreMarks marks.old clients → AreMarks marks.new (clients ++ clients_of visits.now) }
{
    given.validity();
    for visit in visits {
        mark_visit(marks, *visit);
    }
}
