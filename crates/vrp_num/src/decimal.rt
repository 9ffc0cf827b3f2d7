//! Decimal numbers.
ghost use Rattle.std.specs.Prelude.{◌≡◌};
ghost use Rattle.vrp_num.specs.DecimalText.{read, whole};

use crate::spelled::Spelled;

/// A decimal number that is a multiple of a millionth.
#[derive(Clone, Copy, Debug, PartialEq, Eq)]
pub struct Decimal {
    /// The number in millionths.
    pub micro: i64,
}

/// Why a text is not read as a decimal number.
#[derive(Clone, Copy, Debug, PartialEq, Eq)]
pub enum NumberFault {
    /// The text does not spell a number.
    NotNumber,
    /// The number is above 10^12 in size.
    TooLarge,
    /// The number is not a multiple of a millionth.
    TooFine,
}

impl Decimal {
    /// The number that the text spells.
    ///
    /// The text is an optional sign, then digits with an optional point and optional further digits, or a point and digits, then
    /// optionally `e` or `E`, an optional sign and digits. It is refused, in this order, where it is another, where the number is
    /// above 10^12 in size, and where it is not a multiple of a millionth. The number of digits and the exponent may be of any
    /// size.
    pub fn read(text: &[u8]) -> Result<Decimal, NumberFault>
        ensures { result ≡ read text.now }
    {
        match Spelled::of(text) {
            Some(spelled) => spelled.decimal,
            None => Err(NumberFault::NotNumber),
        }
    }

    /// The number where it is whole, and else none.
    pub fn whole(self) -> Option<i64>
        ensures { result ≡ whole self }
    {
        if self.micro % 1_000_000 == 0 {
            Some(self.micro / 1_000_000)
        } else {
            None
        }
    }
}
