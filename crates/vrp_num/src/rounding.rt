//! Rounded distances and numbers.
ghost use Rattle.std.specs.Prelude.{◌≡◌, ◌^◌, ◌<◌, ◌≤◌, ◌*◌, ◌/◌, ◌≤ℤ◌, ◌-ℤ◌, pos, nat_abs};
ghost use Rattle.vrp_num.specs.Rounding.{factor, rounded, square, distance, IsCutRoot, IsNearestRoot, IsDistance};

use crate::decimal::Decimal;
use crate::square_root::root;

/// How a decimal number or a distance becomes a whole one: it is taken once, or as often as the mode's factor says, and then cut or
/// rounded (the modes of PyVRP: Wouda, Lan and Kool 2024).
#[derive(Clone, Copy, Debug, PartialEq, Eq)]
pub enum Rounding {
    /// To the nearest number, halves up.
    Round,
    /// Cut to the whole number below it.
    Trunc,
    /// Ten times, and cut.
    Dimacs,
    /// A thousand times, and to the nearest, halves up.
    Exact,
}

impl Rounding {
    /// How often a number is taken.
    fn factor(self) -> u64
        ensures value { result ≡ factor self }
        ensures bound { result ≤ 1000 }
    {
        match self {
            Rounding::Round => 1,
            Rounding::Trunc => 1,
            Rounding::Dimacs => 10,
            Rounding::Exact => 1000,
        }
    }
}

/// The distance of two points, as a whole number by the mode. A point's coordinates, across and up, are in millionths, and each is
/// at most 10^12 in size.
///
/// With the mode `Round` this is `EUC_2D` of TSPLIB 95, section 2.1.
pub fn euclid(mode: Rounding, a: (i64, i64), b: (i64, i64)) -> u64
    requires a_x { nat_abs a.0 ≤ 10 ^ 12 }
    requires a_y { nat_abs a.1 ≤ 10 ^ 12 }
    requires b_x { nat_abs b.0 ≤ 10 ^ 12 }
    requires b_y { nat_abs b.1 ≤ 10 ^ 12 }
    ensures is { IsDistance mode a b result }
    ensures value { result ≡ distance mode a b }
{
    let square = square(mode, a, b);
    match mode {
        Rounding::Round | Rounding::Exact => nearest_root(square),
        Rounding::Trunc | Rounding::Dimacs => cut_root(square),
    }
}

/// The square of the distance of two points in millionths, times the square of the mode's factor.
fn square(mode: Rounding, a: (i64, i64), b: (i64, i64)) -> u128
    requires a_x { nat_abs a.0 ≤ 10 ^ 12 }
    requires a_y { nat_abs a.1 ≤ 10 ^ 12 }
    requires b_x { nat_abs b.0 ≤ 10 ^ 12 }
    requires b_y { nat_abs b.1 ≤ 10 ^ 12 }
    ensures value { result ≡ square mode a b }
    ensures bound { result < 2 ^ 104 }
{
    let factor = mode.factor() as u128;
    factor * factor * (span_square(a.0, b.0) + span_square(a.1, b.1))
}

/// The square of the difference of two numbers of at most 10^12 in size.
fn span_square(a: i64, b: i64) -> u128
    requires a { nat_abs a ≤ 10 ^ 12 }
    requires b { nat_abs b ≤ 10 ^ 12 }
    ensures value { result ≡ nat_abs (a -ℤ b) ^ 2 }
    ensures bound { result ≤ 4 * 10 ^ 24 }
{
    let span = a.abs_diff(b) as u128;
    span * span
}

/// The root of a number in millionths of millionths, to the nearest whole number, halves up.
fn nearest_root(square: u128) -> u64
    requires { square < 2 ^ 104 }
    ensures { IsNearestRoot square result }
{
    (root(in_units(4 * square)) + 1) / 2
}

/// The root of a number in millionths of millionths, cut to a whole number.
fn cut_root(square: u128) -> u64
    requires { square < 2 ^ 104 }
    ensures { IsCutRoot square result }
{
    root(in_units(square))
}

/// A number in millionths of millionths, cut to a whole number. Most numbers, divided by 2^12, fit 64 bits, and are quickly divided
/// by 5^12.
fn in_units(number: u128) -> u128
    ensures { result ≡ number / 10 ^ 12 }
{
    let rest = number >> 12;
    if rest <= u64::MAX as u128 {
        (rest as u64 / 244_140_625) as u128
    } else {
        number / 1_000_000_000_000
    }
}

/// A decimal number that is not negative, as a whole number by the mode.
pub fn round(mode: Rounding, value: Decimal) -> u64
    requires { pos 0 ≤ℤ value.micro }
    ensures { result ≡ rounded mode (nat_abs value.micro) }
{
    let scaled = mode.factor() as u128 * value.micro.unsigned_abs() as u128;
    let number = match mode {
        Rounding::Round | Rounding::Exact => (2 * scaled + 1_000_000) / 2_000_000,
        Rounding::Trunc | Rounding::Dimacs => scaled / 1_000_000,
    };
    number as u64
}
