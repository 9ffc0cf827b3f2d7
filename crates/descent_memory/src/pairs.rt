//! How many pairs some vehicles make.
ghost use Rattle.std.specs.Prelude.{◌≡◌};
ghost use Rattle.descent_memory.specs.Pairs.{pairs_before};

/// How many pairs some vehicles make, each of them with each later one.
pub(crate) fn pairs_of(vehicles: u32) -> usize
    ensures { result ≡ pairs_before vehicles vehicles }
{
    let mut pairs = 0;
    for first in 0..vehicles {
        pairs += (vehicles - 1 - first) as usize;
    }
    pairs
}
