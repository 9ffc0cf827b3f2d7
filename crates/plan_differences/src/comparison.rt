//! In how many pairs of a client and a side two plans differ.
ghost use Rattle.std.specs.Prelude.{◌≡◌, ◌*◌, ◌≤◌, IsTrue, length};
ghost use Rattle.problem_data.specs.Places.{place_count};
ghost use Rattle.routing_model.specs.Lawful.{is_lawful};
ghost use Rattle.routing_model.specs.Routes.{Routes};
ghost use Rattle.genetic_model.specs.BrokenPairs.{broken_pairs};
ghost use Rattle.plan_differences.specs.Beside.{AreFlanks};
ghost use Rattle.plan_differences.specs.inside.Comparing.{sides_apart};

use crate::filling::fill;
use crate::flanks::{Flanks, UNVISITED};
use problem_data::{MOST_PLACES, ProblemData, Solution};

/// On how many sides of a client two plans differ.
fn sides_apart(here: Flanks, there: Flanks) -> u32
    ensures { result ≡ sides_apart here there }
{
    u32::from(here.left != there.left) + u32::from(here.right != there.right)
}

/// The number of pairs of a client and a side at which two plans differ, by what stands beside their clients. Condition: there are
/// entries for all places. Takes no memory.
pub fn broken_between(given: &ProblemData, a: &[Flanks], b: &[Flanks]) -> u32
    requires a { place_count given.now ≤ length a.now }
    requires b { place_count given.now ≤ length b.now }
    ensures pairs { (x y : Routes) → AreFlanks given.now x a.now → AreFlanks given.now y b.now → result ≡ broken_pairs given.now x y }
    ensures few { result ≤ 2 * length given.now.clients }
{
    given.validity();
    let clients = given.client_places();
    let mut broken = 0;
    for place in clients.start as usize..clients.end as usize {
        broken += sides_apart(a[place], b[place]);
    }
    broken
}

/// The number of pairs of a client and a side at which two plans differ: on that side of the client stands another client, or a depot
/// only in one of them, or it is visited only in one of them (Vidal and others 2012). A start, an end and a reload are all a depot.
///
/// Condition: both plans are lawful. Takes no memory.
pub fn broken_pairs(given: &ProblemData, a: &Solution, b: &Solution) -> u32
    requires a { IsTrue (is_lawful given.now a.now.routes) }
    requires b { IsTrue (is_lawful given.now b.now.routes) }
    ensures { result ≡ broken_pairs given.now a.now.routes b.now.routes }
{
    given.validity();
    let mut of_a = [UNVISITED; MOST_PLACES as usize];
    let mut of_b = [UNVISITED; MOST_PLACES as usize];
    fill(given, a.routes.items(), &mut of_a);
    fill(given, b.routes.items(), &mut of_b);
    broken_between(given, &of_a, &of_b)
}
