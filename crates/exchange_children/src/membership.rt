//! Whether numbers are among others.
ghost use Rattle.std.specs.Prelude.{◌≡◌};
ghost use Rattle.list_words.specs.Lists.{is_in};

/// Whether a number is among others.
pub(crate) fn is_among(numbers: &[u32], number: u32) -> bool
    ensures { result ≡ is_in numbers.now number }
{
    for other in numbers {
        if number == *other {
            return true;
        }
    }
    false
}
