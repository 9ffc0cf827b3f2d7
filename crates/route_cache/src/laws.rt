//! What the definitions say of routes.
ghost use Rattle.route_cache.specs.Laws.{LawfulListsAreListed};

/// A route can be made of each list of a lawful plan: it is tidy, names places that are there, and isn't too long.
pub fn lists_of_lawful_plans_are_listed()
    ensures { LawfulListsAreListed }
{}
