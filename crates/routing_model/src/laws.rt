//! Laws of the definitions, as contracts of calls that do nothing.
ghost use Rattle.routing_model.specs.Laws.{BestDriveIsBest, BestDriveIsUnique, BestStaysFeasible, FeasibleCostsTheSame, FirstStartHasLeastWarp, LawfulIsTested, TidiedIsTidy, TidiedStays, TidyStays, UnusedCostsNothing};

/// The best drive is one of the drives, with the least warp of all and the least duration among those.
pub fn best_drive_is_best()
    ensures best { BestDriveIsBest }
    ensures unique { BestDriveIsUnique }
{}

/// No start has less warp than the first.
pub fn first_start_has_least_warp()
    ensures { FirstStartHasLeastWarp }
{}

/// Tidying makes a list tidy, and leaves a tidy list.
pub fn tidying_tidies()
    ensures tidy { TidiedIsTidy }
    ensures stays { TidyStays }
    ensures again { TidiedStays }
{}

/// The test of lawful plans says what its facts say.
pub fn lawful_plans_are_tested()
    ensures { LawfulIsTested }
{}

/// A vehicle whose list has no client costs nothing.
pub fn unused_vehicle_costs_nothing()
    ensures { UnusedCostsNothing }
{}

/// A feasible plan costs the same by all weights, since it exceeds nothing.
pub fn feasible_plan_costs_the_same()
    ensures { FeasibleCostsTheSame }
{}

/// The best of the plans that a search finds is feasible, and costs what is said of it.
pub fn best_plan_is_feasible()
    ensures { BestStaysFeasible }
{}
