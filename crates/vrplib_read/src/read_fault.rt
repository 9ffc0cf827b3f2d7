//! Why no problem was read.
ghost use Rattle.std.specs.Prelude.{◌≡◌};

use std::alloc::AllocError;
use vrplib_model::Refusal;

/// Why no problem was read.
#[derive(Clone, Copy, Debug, PartialEq, Eq)]
pub enum ReadFault {
    /// The text is refused.
    Refused(Refusal),
    /// Memory ran out before the text was read or refused.
    NoMemory,
}

impl From<AllocError> for ReadFault {
    ghost use Rattle.vrplib_read.specs.declared.read_fault.ReadFault.TheVariants.{NoMemory};

    ghost from_gives = { λ _ fault. fault ≡ NoMemory };

    fn from(_: AllocError) -> ReadFault {
        ReadFault::NoMemory
    }
}
