//! The prizes of the clients that a plan doesn't visit.
ghost use Rattle.std.specs.Prelude.{◌≡◌, ◌+◌, ◌*◌, ◌≤◌, IsTrue, All, List, length, sum_by};
ghost use Rattle.std.specs.List.{list_all};
ghost use Rattle.problem_data.specs.declared.visit.Visit.{Visit};
ghost use Rattle.problem_data.specs.Limits.{largest, most_places, most_visits};
ghost use Rattle.problem_data.specs.Places.{client_places};
ghost use Rattle.routing_model.specs.Cost.{missed_prizes};
ghost use Rattle.routing_model.specs.Lawful.{names_place};
ghost use Rattle.routing_model.specs.Listed.{IsListed};
ghost use Rattle.penalty_cost.specs.Plans.{IsDrivablePlan};
ghost use Rattle.penalty_cost.specs.inside.VisitSums.{at_plan, at_visit, at_visits, prize_at};

use problem_data::{ProblemData, Visit, VisitList};

/// The prize of a visit: its client's, and none for a reload.
fn visit_prize(given: &ProblemData, visit: Visit) -> u64
    requires { IsTrue (names_place given.now visit) }
    ensures value { result ≡ at_visit (prize_at given.now) visit }
    ensures short { result ≤ largest }
{
    match visit {
        Visit::Client(place) => given.client(place).prize,
        Visit::Reload(_) => 0,
    }
}

/// The prizes of a list's clients.
fn list_prizes(given: &ProblemData, visits: &[Visit]) -> u64
    requires { IsListed given.now visits.now }
    ensures value { result ≡ at_visits (prize_at given.now) visits.now }
    ensures short { result ≤ most_visits * largest }
{
    let mut prizes = 0;
    for visit in visits {
        prizes += visit_prize(given, *visit);
    }
    prizes
}

/// The prizes of a plan's clients.
fn plan_prizes(given: &ProblemData, routes: &[VisitList]) -> u64
    requires { IsDrivablePlan given.now routes.now }
    ensures { result ≡ at_plan (prize_at given.now) routes.now }
{
    given.vehicles();
    let mut prizes = 0;
    for visits in routes {
        prizes += list_prizes(given, visits.items());
    }
    prizes
}

/// The prizes of all clients.
fn all_prizes(given: &ProblemData) -> u64
    ensures value { result ≡ sum_by (prize_at given.now) (client_places given.now) }
    ensures short { result ≤ most_places * largest }
{
    let problem = given.problem();
    let depots = problem.depots.items().len() as u32;
    let clients = problem.clients.items().len() as u32;
    let mut prizes = 0;
    for client in 0..clients {
        prizes += given.client(depots + client).prize;
    }
    prizes
}

/// The prizes of the clients that a plan doesn't visit.
pub(crate) fn missed_prizes(given: &ProblemData, routes: &[VisitList]) -> u64
    requires { IsDrivablePlan given.now routes.now }
    ensures value { result ≡ missed_prizes given.now routes.now }
    ensures short { result ≤ most_places * largest }
{
    all_prizes(given) - plan_prizes(given, routes)
}
