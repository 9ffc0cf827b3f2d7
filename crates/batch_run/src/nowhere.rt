//! A sink that keeps nothing.
ghost use Rattle.std.specs.Prelude.{None, IsOk};

use crate::sink::{Failed, Sink};

/// Takes all bytes and keeps none.
#[derive(Clone, Copy, Debug)]
pub struct Nowhere;

impl Sink for Nowhere {
    ghost written = { λ _. None };

    ghost faults = { λ _. 0 };

    fn put(&mut self, _bytes: &[u8]) -> Result<(), Failed>
        ensures taken { IsOk result }
    {
        Ok(())
    }
}
