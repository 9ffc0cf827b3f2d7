//! Laws of the random solution, as contracts of calls that do nothing.
ghost use Rattle.random_model.specs.Laws.{RandomHasClientsAlone, RandomIsLawful};

/// Each random solution of a valid problem is lawful.
pub fn random_solutions_are_lawful()
    ensures { RandomIsLawful }
{}

/// A random solution visits clients alone, without a reload.
pub fn random_solutions_have_clients_alone()
    ensures { RandomHasClientsAlone }
{}
