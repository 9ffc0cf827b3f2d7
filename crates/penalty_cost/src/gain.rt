//! What a proposal would gain.
ghost use Rattle.std.specs.Prelude.{◌≡◌, option_map};
ghost use Rattle.gain_model.specs.Gains.{AreApart, GainSide};
ghost use Rattle.penalty_cost.specs.Proposals.{parts_at};

use crate::side_parts::SideParts;
use gain_model::{Part, Side};
use std::marker::Model;

/// New lists of one vehicle or two, by parts of a plan's lists, and by how much the plan's cost changes. It holds positions and
/// numbers only; a proposal alone makes one.
#[derive(Drop)]
pub struct Gain {
    pub(crate) first: SideParts,
    pub(crate) second: Option<SideParts>,
    pub(crate) amount: i128,
}

impl Model for Gain {
    ghost use Rattle.gain_model.specs.Gains.{AreApart, GainState};

    ghost Value = { GainState };

    ghost view = { λ a. record { first = a.first; second = a.second; amount = a.amount } };

    ghost invariant = { λ a. AreApart (record { first = a.first; second = a.second; amount = a.amount }) };
}

impl Gain {
    /// The cost of the new lists less that of the old ones, with the prizes of the clients that are left out.
    pub fn amount(&self) -> i128
        ensures { result ≡ self.now.amount }
    {
        self.amount
    }

    /// The vehicles of its sides, which are two where there are two sides.
    pub fn vehicles(&self) -> (u32, Option<u32>)
        ensures first { result.0 ≡ self.now.first.vehicle }
        ensures second { result.1 ≡ option_map (λ (s : GainSide). s.vehicle) self.now.second }
        ensures apart { AreApart self.now }
    {
        let second = match &self.second {
            Some(side) => Some(side.vehicle()),
            None => None,
        };
        (self.first.vehicle(), second)
    }

    /// The parts of a side's new list, in order; none for the second side where there is one side.
    pub fn parts(&self, side: Side) -> &[Part]
        ensures { result.now ≡ parts_at self.now side }
    {
        match side {
            Side::First => self.first.parts(),
            Side::Second => match &self.second {
                Some(second) => second.parts(),
                None => &[],
            },
        }
    }
}
