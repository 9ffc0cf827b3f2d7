//! Places on a ring.
ghost use Rattle.std.specs.Prelude.{◌≡◌, ◌+◌, ◌-◌, ◌%◌, ◌<◌};

/// The place behind one of a ring.
pub(crate) fn next(place: u32, size: u32) -> u32
    requires { place < size }
    ensures next { result ≡ (place + 1) % size }
    ensures there { result < size }
{
    if place + 1 == size { 0 } else { place + 1 }
}

/// The place before one of a ring.
pub(crate) fn previous(place: u32, size: u32) -> u32
    requires { place < size }
    ensures previous { result ≡ (place + size - 1) % size }
    ensures there { result < size }
{
    if place == 0 { size - 1 } else { place - 1 }
}
