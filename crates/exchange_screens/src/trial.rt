//! What an exchange tries, and what that changes.
ghost use Rattle.std.specs.Prelude.{None};
ghost use Rattle.std.specs.Option.{MatchOption};
ghost use Rattle.exchange_screens.specs.Exchanges.{IsExchange};
ghost use Rattle.exchange_screens.specs.Trials.{IsAnswer, IsChange};

use crate::put::put;
use crate::swap::swap;
use list_changes::Change;
use move_core::{Search, Target};

/// A candidate of an exchange of n and m: the piece of n from the client goes to the target, or changes places with the piece of m from
/// the client behind which the target is.
#[derive(Clone, Copy)]
pub struct Trial {
    pub n: u32,
    pub m: u32,
    pub client: u32,
    pub target: Target,
}

/// What a trial changes. None where it doesn't apply, or leaves the plan as it is; then nothing is its answer. It reads no leg.
pub fn change_of(search: &Search<'_>, trial: Trial) -> Option<Change>
    requires { IsExchange trial.n trial.m }
    ensures { MatchOption result (IsAnswer search.now trial None) (λ change. IsChange search.now trial change) }
{
    if trial.m == 0 {
        put(search, trial)
    } else {
        swap(search, trial)
    }
}
