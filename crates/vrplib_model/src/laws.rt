//! A law of the definitions.
ghost use Rattle.vrplib_model.specs.Laws.{AcceptedIsValid};

/// The problem of each accepted text is valid.
pub fn accepted_problems_are_valid()
    ensures { AcceptedIsValid }
{}
