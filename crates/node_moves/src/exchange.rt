//! The exchanges: kinds 1 to 9.
ghost use Rattle.std.specs.Prelude.{◌≡◌, IsTrue, None};
ghost use Rattle.problem_data.specs.Reads.{RoseAtMost};
ghost use Rattle.gain_model.specs.Operators.{fits_all};
ghost use Rattle.exchange_screens.specs.Exchanges.{IsExchange, exchange_kind};
ghost use Rattle.exchange_screens.specs.Trials.{IsAnswer};
ghost use Rattle.node_moves.specs.Exchanges.{answer_reads};

use exchange_screens::{Trial, change_of};
use list_changes::{improving_gain, is_dear};
use move_core::{Candidate, Gain, Kind, Operator, Search, Tally, Target};
use problem_data::{NoMemory, Reads, Steps};
use std::marker::Model;

/// An exchange of n and m clients. With no other client, the piece of n clients from a client on goes to a target; else it changes
/// places with the piece of m clients from the target's client on. It remembers nothing of the plan.
#[derive(Drop)]
pub struct Exchange {
    n: u32,
    m: u32,
    tally: Tally,
}

impl Model for Exchange {
    ghost use Rattle.std.specs.Prelude.{};
    ghost use Rattle.exchange_screens.specs.Exchanges.{IsExchange};
    ghost use Rattle.node_moves.specs.Exchanges.{ExchangeState};

    ghost Value = { ExchangeState };

    ghost view = { λ a. record { n = a.n; m = a.m; tally = a.tally } };

    ghost invariant = { λ a. IsExchange a.n a.m };
}

impl Exchange {
    /// An exchange that has tried nothing. Condition: n is 1 to 3, and m at most n.
    pub fn new(n: u32, m: u32) -> Exchange
        requires { IsExchange n m }
        ensures { result ≡ record { n = n; m = m; tally = record { tried = 0; applied = 0 } } }
    {
        Exchange {
            n,
            m,
            tally: Tally {
                tried: 0,
                applied: 0,
            },
        }
    }
}

/// The kind of an exchange of n and m.
fn kind_of(n: u32, m: u32) -> Kind
    requires { IsExchange n m }
    ensures { result ≡ exchange_kind n m }
{
    match m {
        0 => match n {
            1 => Kind::Exchange10,
            2 => Kind::Exchange20,
            _ => Kind::Exchange30,
        },
        1 => match n {
            1 => Kind::Exchange11,
            2 => Kind::Exchange21,
            _ => Kind::Exchange31,
        },
        2 => match n {
            2 => Kind::Exchange22,
            _ => Kind::Exchange32,
        },
        _ => Kind::Exchange33,
    }
}

/// Whether it is known of a trial that it gives nothing.
fn is_hopeless(search: &Search<'_>, trial: Trial) -> bool
    requires { IsExchange trial.n trial.m }
    ensures { IsTrue result → IsAnswer search.now trial None }
{
    match trial.target {
        Target::After(neighbour) => {
            search.is_hopeless(kind_of(trial.n, trial.m), trial.client, neighbour)
        }
        _ => false,
    }
}

/// The answer to a trial: nothing is copied or allocated, and a change that surely doesn't lower the cost isn't costed.
#[inline(never)]
fn answer(search: &Search<'_>, trial: Trial, reads: &mut Steps<Reads>) -> Option<Gain>
    requires { IsExchange trial.n trial.m }
    ensures answer { IsAnswer search.now trial result }
    ensures reads { RoseAtMost answer_reads reads.old reads.new }
{
    let change = change_of(search, trial)?;
    if is_dear(search, change, reads) {
        return None;
    }
    improving_gain(search, change, reads)
}

impl Operator for Exchange {
    ghost kind_of = { λ o. exchange_kind o.n o.m };

    ghost tally_of = { λ o. o.tally };

    ghost fits = { λ _. fits_all };

    fn kind(&self) -> Kind {
        kind_of(self.n, self.m)
    }

    fn prepare(&mut self, search: &Search<'_>, reads: &mut Steps<Reads>) -> Result<(), NoMemory> {
        Ok(())
    }

    fn evaluate(
        &mut self,
        search: &Search<'_>,
        candidate: Candidate,
        reads: &mut Steps<Reads>,
    ) -> Option<Gain> {
        self.tally.tried = self.tally.tried.saturating_add(1);
        let Candidate::Node { client, target, .. } = candidate else {
            return None;
        };
        let trial = Trial {
            n: self.n,
            m: self.m,
            client,
            target,
        };
        if is_hopeless(search, trial) {
            return None;
        }
        answer(search, trial, reads)
    }

    fn changed(&mut self, search: &Search<'_>, vehicle: u32, reads: &mut Steps<Reads>) {}

    fn applied(&mut self) {
        self.tally.applied = self.tally.applied.saturating_add(1);
    }

    fn tally(&self) -> Tally {
        self.tally
    }
}
