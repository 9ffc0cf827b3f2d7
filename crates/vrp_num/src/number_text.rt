//! The parts of a text that spells a number, and what they come to.
ghost use Rattle.std.specs.Prelude.{◌≡◌, ◌+◌, ◌-◌, ◌*◌, ◌^◌, ◌<◌, ◌≤◌, ◌==◌, nat_lt, not, ◌&&◌, ◌||◌, ◌++◌, if◌then◌else◌, true, false, min, length, take, drop, slice_index, pos, neg_ℤ, MatchOption};
ghost use Rattle.std.specs.Char.{is_ascii_digit};
ghost use Rattle.std.specs.List.{list_all, position_or_len, before_first, after_first};
ghost use Rattle.std.specs.Str.Parse.{AllDigits, digits_value, digits_value_after};
ghost use Rattle.vrp_num.specs.DecimalText.{is_minus, is_point, is_exponent_mark, unsigned, parts_of, are_of_number, is_number, AreDigits, spells_whole, held};

use crate::decimal::{Decimal, NumberFault};
use std::marker::Model;

/// The largest number of millionths that a decimal holds.
const LIMIT: u64 = 1_000_000_000_000_000_000;

/// How many digits behind the point those of millionths end.
const MILLIONTH: u64 = 6;

/// The parts of a text that spells a number: of `-12.5e+3` they are a minus, `12`, `5`, no minus and `3`.
#[derive(Drop)]
pub(crate) struct NumberText<'a> {
    is_negative: bool,
    whole: &'a [u8],
    fraction: &'a [u8],
    is_small: bool,
    exponent: &'a [u8],
}

impl<'a> Model for NumberText<'a> {
    ghost use Rattle.vrp_num.specs.DecimalText.{Parts};

    ghost Value = { Parts };

    ghost view = { λ t. record {
      is_negative = t.is_negative;
      whole = t.whole.now;
      fraction = t.fraction.now;
      is_small = t.is_small;
      exponent = t.exponent.now;
    } };
}

impl<'a> NumberText<'a> {
    /// The parts of the text, or none where it spells no number.
    pub(crate) fn of(text: &'a [u8]) -> Option<NumberText<'a>>
        ensures { MatchOption result (is_number text.now ≡ false) (λ parts. (is_number text.now ≡ true) × (parts ≡ parts_of text.now)) }
    {
        let mark = exponent_mark(text);
        let parts = NumberText::cut(text, mark);
        if parts.are_of_number(mark < text.len()) {
            Some(parts)
        } else {
            None
        }
    }

    /// The parts of the text, whose exponent stands behind the mark.
    fn cut(text: &'a [u8], mark: usize) -> NumberText<'a>
        requires { mark ≡ position_or_len is_exponent_mark text.now }
        ensures { result ≡ parts_of text.now }
    {
        let (mantissa, exponent) = around(text, mark);
        let digits = unsigned(mantissa);
        let (whole, fraction) = around_point(digits);
        NumberText {
            is_negative: is_minus(mantissa),
            whole,
            fraction,
            is_small: is_minus(exponent),
            exponent: unsigned(exponent),
        }
    }

    /// The parts are those of a number, in a text that has the mark of an exponent or not.
    fn are_of_number(&self, has_mark: bool) -> bool
        ensures { result ≡ are_of_number has_mark self.now }
    {
        self.has_digits()
            && are_digits(self.whole)
            && are_digits(self.fraction)
            && are_digits(self.exponent)
            && (!has_mark || !self.exponent.is_empty())
    }

    /// Something stands before or behind the point.
    fn has_digits(&self) -> bool
        ensures { result ≡ nat_lt 0 (length (self.now.whole ++ self.now.fraction)) }
    {
        !self.whole.is_empty() || !self.fraction.is_empty()
    }

    /// A minus stands before the number.
    pub(crate) fn is_negative(&self) -> bool
        ensures { result ≡ self.now.is_negative }
    {
        self.is_negative
    }

    /// The number is whole.
    pub(crate) fn is_whole(&self) -> bool
        requires { AreDigits self.now }
        ensures { result ≡ spells_whole self.now }
    {
        self.is_zero_from(self.place(0))
    }

    /// The number, or why no decimal holds it.
    pub(crate) fn decimal(&self) -> Result<Decimal, NumberFault>
        requires { AreDigits self.now }
        ensures { result ≡ held self.now }
    {
        let place = self.place(MILLIONTH);
        let size = self.number_before(place);
        let is_fine = self.is_zero_from(place);
        if is_above_limit(size, is_fine) {
            Err(NumberFault::TooLarge)
        } else if is_fine {
            Ok(with_sign(self.is_negative(), size))
        } else {
            Err(NumberFault::TooFine)
        }
    }

    /// How many digits stand before the place so many digits behind the point, which the exponent moves. An exponent above 2^64 - 1
    /// moves it past all digits, and counts as that number.
    fn place(&self, behind_point: u64) -> u128
        requires { AllDigits 10 self.now.exponent }
        ensures { let exponent = min (digits_value 10 self.now.exponent) u64.MAX in
            let unmoved = length self.now.whole + behind_point in
            result ≡ (if self.now.is_small then unmoved - exponent else unmoved + exponent) }
    {
        let exponent = u128::from(number_after(0, self.exponent));
        let unmoved = self.whole.len() as u128 + u128::from(behind_point);
        if self.is_small {
            unmoved.saturating_sub(exponent)
        } else {
            unmoved + exponent
        }
    }

    /// The number that the digits before a place write, and zeros behind them up to the place; at most 2^64 - 1.
    fn number_before(&self, place: u128) -> u64
        requires whole { AllDigits 10 self.now.whole }
        requires fraction { AllDigits 10 self.now.fraction }
        ensures { let digits = self.now.whole ++ self.now.fraction in
            result ≡ min (digits_value 10 (take place digits) * 10 ^ (place - length digits)) u64.MAX }
    {
        number_before(self.whole, self.fraction, place)
    }

    /// The digits from a place on are zeros.
    fn is_zero_from(&self, place: u128) -> bool
        ensures value { result ≡ list_all (λ b. b == 48) (drop place (self.now.whole ++ self.now.fraction)) }
        ensures short { (length self.now.whole < 2 ^ 63) × (length self.now.fraction < 2 ^ 63) }
    {
        is_zero_from(self.whole, self.fraction, place)
    }
}

/// The number that the digits before a place write, and zeros behind them up to the place; at most 2^64 - 1.
fn number_before(whole: &[u8], fraction: &[u8], place: u128) -> u64
    requires whole { AllDigits 10 whole.now }
    requires fraction { AllDigits 10 fraction.now }
    ensures { let digits = whole.now ++ fraction.now in
        result ≡ min (digits_value 10 (take place digits) * 10 ^ (place - length digits)) u64.MAX }
{
    let in_fraction = place.saturating_sub(whole.len() as u128);
    let front = number_after(0, before(whole, place));
    let number = number_after(front, before(fraction, in_fraction));
    times_power(number, in_fraction.saturating_sub(fraction.len() as u128))
}

/// The digits from a place on are zeros.
fn is_zero_from(whole: &[u8], fraction: &[u8], place: u128) -> bool
    ensures { result ≡ list_all (λ b. b == 48) (drop place (whole.now ++ fraction.now)) }
{
    let in_fraction = place.saturating_sub(whole.len() as u128);
    are_zeros(behind(whole, place)) && are_zeros(behind(fraction, in_fraction))
}

fn is_exponent_mark(byte: u8) -> bool
    ensures { result ≡ is_exponent_mark byte }
{
    byte == b'e' || byte == b'E'
}

/// Where the mark of the exponent stands, or the text's length.
fn exponent_mark(text: &[u8]) -> usize
    ensures { result ≡ position_or_len is_exponent_mark text.now }
{
    text.iter()
        .take_while(|byte| !is_exponent_mark(**byte))
        .count()
}

/// Where the point stands, or the text's length.
fn point(text: &[u8]) -> usize
    ensures { result ≡ position_or_len is_point text.now }
{
    text.iter().take_while(|byte| **byte != b'.').count()
}

/// What stands before and behind the point, or all and nothing.
fn around_point(text: &[u8]) -> (&[u8], &[u8])
    ensures before { result.0.now ≡ before_first is_point text.now }
    ensures behind { result.1.now ≡ after_first is_point text.now }
{
    around(text, point(text))
}

/// What stands before and behind the byte at a place, or all and nothing at the text's length.
fn around(text: &[u8], place: usize) -> (&[u8], &[u8])
    requires { place ≤ length text.now }
    ensures before { result.0.now ≡ take place text.now }
    ensures behind { result.1.now ≡ drop (place + 1) text.now }
{
    let (before, rest) = text.split_at(place);
    match rest {
        [] => (before, rest),
        [_, behind @ ..] => (before, behind),
    }
}

/// A minus stands first.
fn is_minus(text: &[u8]) -> bool
    ensures { result ≡ is_minus (slice_index text.now 0) }
{
    match text {
        [b'-', ..] => true,
        _ => false,
    }
}

/// The text without the sign that it may begin with.
fn unsigned(text: &[u8]) -> &[u8]
    ensures { result.now ≡ unsigned text.now }
{
    match text {
        [b'+' | b'-', rest @ ..] => rest,
        _ => text,
    }
}

fn are_digits(text: &[u8]) -> bool
    ensures { result ≡ list_all is_ascii_digit text.now }
{
    text.iter().all(|byte| byte.is_ascii_digit())
}

fn are_zeros(digits: &[u8]) -> bool
    ensures { result ≡ list_all (λ b. b == 48) digits.now }
{
    digits.iter().all(|digit| *digit == b'0')
}

/// The digits before a place.
fn before(digits: &[u8], place: u128) -> &[u8]
    ensures { result.now ≡ take place digits.now }
{
    if place < digits.len() as u128 {
        &digits[..place as usize]
    } else {
        digits
    }
}

/// The digits from a place on.
fn behind(digits: &[u8], place: u128) -> &[u8]
    ensures { result.now ≡ drop place digits.now }
{
    if place < digits.len() as u128 {
        &digits[place as usize..]
    } else {
        &[]
    }
}

/// The number that digits write behind those of another number; at most 2^64 - 1.
fn number_after(number: u64, digits: &[u8]) -> u64
    requires { AllDigits 10 digits.now }
    ensures { result ≡ min (digits_value_after 10 number digits.now) u64.MAX }
{
    let mut value = number;
    for digit in digits {
        value = value
            .saturating_mul(10)
            .saturating_add(u64::from(*digit - b'0'));
    }
    value
}

/// The number times a power of ten; at most 2^64 - 1.
fn times_power(number: u64, tens: u128) -> u64
    ensures { result ≡ min (number * 10 ^ tens) u64.MAX }
{
    let mut value = number;
    for _count in 0..tens.min(20) {
        value = value.saturating_mul(10);
    }
    value
}

/// A number is above the limit that has this size in millionths when it is cut, and is that size where it `is_fine`.
fn is_above_limit(size: u64, is_fine: bool) -> bool
    ensures { result ≡ (nat_lt (10 ^ 18) size || (size == 10 ^ 18 && not is_fine)) }
{
    size > LIMIT || (size == LIMIT && !is_fine)
}

/// The number of so many millionths.
fn with_sign(is_negative: bool, size: u64) -> Decimal
    requires { size ≤ 10 ^ 18 }
    ensures { result.micro ≡ (if is_negative then neg_ℤ (pos size) else pos size) }
{
    let micro = size as i64;
    Decimal {
        micro: if is_negative { -micro } else { micro },
    }
}
