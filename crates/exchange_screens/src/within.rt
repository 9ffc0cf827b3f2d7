//! Exchanges of two clients of one list.
ghost use Rattle.std.specs.Prelude.{◌≡◌, ◌<◌, IsTrue, None};
ghost use Rattle.problem_data.specs.Reads.{RoseAtMost};
ghost use Rattle.search_model.specs.declared.candidate.Target.TheVariants.{After};
ghost use Rattle.move_core.specs.Looks.{AreHopeless};
ghost use Rattle.exchange_screens.specs.Exchanges.{IsExchange};
ghost use Rattle.exchange_screens.specs.Trials.{IsAnswer};

use crate::trial::{Trial, change_of};
use list_changes::{Change, is_one_dear};
use move_core::{Search, Target};
use problem_data::{Reads, Steps};

/// Whether an exchange surely gives nothing, where it changes one list. At most four legs are read.
fn is_hopeless(
    search: &Search<'_>,
    n: u32,
    m: u32,
    client: u32,
    neighbour: u32,
    reads: &mut Steps<Reads>,
) -> bool
    requires { IsExchange n m }
    ensures hopeless { IsTrue result → IsAnswer search.now (record { n = n; m = m; client = client; target = After neighbour }) None }
    ensures reads { RoseAtMost 4 reads.old reads.new }
{
    let trial = Trial {
        n,
        m,
        client,
        target: Target::After(neighbour),
    };
    match change_of(search, trial) {
        None => true,
        Some(Change::One { vehicle, layout }) => is_one_dear(search, vehicle, layout, reads),
        Some(_) => false,
    }
}

/// Whether an exchange surely gives nothing, since it doesn't apply. It reads no leg.
fn changes_nothing(search: &Search<'_>, n: u32, client: u32, neighbour: u32) -> bool
    requires { IsExchange 3 n }
    ensures { IsTrue result → IsAnswer search.now (record { n = 3; m = n; client = client; target = After neighbour }) None }
{
    let trial = Trial {
        n: 3,
        m: n,
        client,
        target: Target::After(neighbour),
    };
    change_of(search, trial).is_none()
}

/// Which exchanges of a client with another one of its list surely give nothing. Those of three clients with some are told by what they
/// change alone, so that at most 24 legs are read.
pub(crate) fn hopeless_within(
    search: &Search<'_>,
    client: u32,
    neighbour: u32,
    reads: &mut Steps<Reads>,
) -> [bool; 9]
    ensures hopeless { AreHopeless search.now client neighbour result }
    ensures reads { RoseAtMost 24 reads.old reads.new }
{
    [
        is_hopeless(search, 1, 0, client, neighbour, reads),
        is_hopeless(search, 2, 0, client, neighbour, reads),
        is_hopeless(search, 3, 0, client, neighbour, reads),
        is_hopeless(search, 1, 1, client, neighbour, reads),
        is_hopeless(search, 2, 1, client, neighbour, reads),
        changes_nothing(search, 1, client, neighbour),
        is_hopeless(search, 2, 2, client, neighbour, reads),
        changes_nothing(search, 2, client, neighbour),
        changes_nothing(search, 3, client, neighbour),
    ]
}
