//! Laws of the genetic search, as contracts of calls that do nothing.
ghost use Rattle.genetic_model.specs.Laws.{DescentStaysLawful, DuplicatesGo, ExchangeIsLawful, OrderIsUnique, ParentsAreItems, RoutesAreInOrder, RunFindsFeasible, RunStaysLawful, SetTellsNeighbours, SetTellsUnvisited, ShiftsSettle, TurnsInOrder, WorstGo};

/// The best that a run finds is feasible, and its cost is what it costs.
pub fn run_finds_feasible()
    ensures { RunFindsFeasible }
{}

/// The shifts of an exchange go on as long as the difference falls.
pub fn shifts_settle()
    ensures { ShiftsSettle }
{}

/// A list that is purged loses its duplicates as long as it is too long and has one, and then its worst items as long as it is
/// too long.
pub fn purging_ends()
    ensures duplicates { DuplicatesGo }
    ensures worst { WorstGo }
{}

/// The set of triples by which broken pairs are counted tells what stands beside a client.
pub fn triples_tell_neighbours()
    ensures visited { SetTellsNeighbours }
    ensures unvisited { SetTellsUnvisited }
{}

/// Going round from the first axis is a strict weak order of directions. The order of routes is the used vehicles sorted by it, ties by
/// number, and no other list is.
pub fn directions_are_ordered()
    ensures turns { TurnsInOrder }
    ensures sorted { RoutesAreInOrder }
    ensures unique { OrderIsUnique }
{}

/// The exchange of two lawful plans of a valid problem gives a lawful plan.
pub fn exchange_is_lawful()
    ensures { ExchangeIsLawful }
{}

/// Each plan in the population of a run is lawful: random plans are, and exchanges and descents of lawful plans.
pub fn run_stays_lawful()
    ensures descent { DescentStaysLawful }
    ensures parents { ParentsAreItems }
    ensures population { RunStaysLawful }
{}
