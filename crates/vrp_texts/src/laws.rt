//! What the text of a plan tells, as contracts.
ghost use Rattle.vrp_texts.specs.PrintedLaws.{TextTellsLawfulPlan, TextTellsTypedPlan, TextTellsValidPlan};

/// The text of a plan tells its used vehicles, type by type, and its cost, where there are fewer than 10^64 types.
pub fn texts_tell_typed_plans()
    ensures { TextTellsTypedPlan }
{}

/// So it does for each valid problem.
pub fn texts_tell_valid_plans()
    ensures { TextTellsValidPlan }
{}

/// Of lawful plans of a valid problem nothing else need be known.
pub fn texts_tell_lawful_plans()
    ensures { TextTellsLawfulPlan }
{}
