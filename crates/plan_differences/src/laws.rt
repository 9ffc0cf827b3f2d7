//! A law of broken pairs, as the contract of a call that does nothing.
ghost use Rattle.plan_differences.specs.Laws.{BrokenPairsAreMutual};

/// A plan differs from another in as many pairs as that one differs from it.
pub fn broken_pairs_are_mutual()
    ensures { BrokenPairsAreMutual }
{}
