//! A side of a gain.
ghost use Rattle.std.specs.Prelude.{◌≡◌, [], ◌∷◌, ◌++◌, ◌<◌, length};

use arrayvec::ArrayVec;
use gain_model::Part;
use std::marker::Model;

/// The parts of a vehicle's new list, in order.
#[derive(Drop)]
pub struct SideParts {
    vehicle: u32,
    parts: ArrayVec<Part, 8>,
}

impl Model for SideParts {
    ghost use Rattle.gain_model.specs.Gains.{GainSide};

    ghost Value = { GainSide };

    ghost view = { λ a. record { vehicle = a.vehicle; parts = a.parts.items } };
}

impl SideParts {
    /// No part yet.
    pub(crate) fn new(vehicle: u32) -> SideParts
        ensures { result ≡ record { vehicle = vehicle; parts = [] } }
    {
        SideParts {
            vehicle,
            parts: ArrayVec::new(),
        }
    }

    /// One part more.
    pub(crate) fn push(&mut self, part: Part)
        requires { length self.old.parts < 8 }
        ensures { self.new ≡ record self.old { parts = self.old.parts ++ part ∷ [] } }
    {
        self.parts.push(part);
    }

    /// The vehicle.
    pub(crate) fn vehicle(&self) -> u32
        ensures { result ≡ self.now.vehicle }
    {
        self.vehicle
    }

    /// The parts.
    pub(crate) fn parts(&self) -> &[Part]
        ensures { result.now ≡ self.now.parts }
    {
        self.parts.as_slice()
    }
}
