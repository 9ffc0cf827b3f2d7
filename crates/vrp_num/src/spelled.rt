//! Numbers that texts spell.
ghost use Rattle.std.specs.Prelude.{◌≡◌};
ghost use Rattle.vrp_num.specs.DecimalText.{spelled};

use crate::decimal::{Decimal, NumberFault};
use crate::number_text::NumberText;

/// A number that a text spells, of any size.
#[derive(Clone, Copy, Debug, PartialEq, Eq)]
pub struct Spelled {
    /// A minus stands before the number, which may be 0.
    pub is_negative: bool,
    /// The number is whole, however large it is.
    pub is_whole: bool,
    /// The number, or why no decimal holds it: it is too large, or else too fine.
    pub decimal: Result<Decimal, NumberFault>,
}

impl Spelled {
    /// The number that the text spells, or none where it spells none.
    ///
    /// The text is an optional sign, then digits with an optional point and optional further digits, or a point and digits, then
    /// optionally `e` or `E`, an optional sign and digits.
    pub fn of(text: &[u8]) -> Option<Spelled>
        ensures { result ≡ spelled text.now }
    {
        match NumberText::of(text) {
            Some(number) => Some(Spelled {
                is_negative: number.is_negative(),
                is_whole: number.is_whole(),
                decimal: number.decimal(),
            }),
            None => None,
        }
    }
}
