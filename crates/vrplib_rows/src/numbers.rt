//! The numbers of tokens, as the fields of rows and values hold them.
ghost use Rattle.std.specs.Prelude.{◌≡◌, ◌^◌, ◌<◌, ◌≤◌, ◌==◌, ◌&&◌, nat_le, if◌then◌else◌, nat_abs, negsuc, Ok, Err, IfOk};
ghost use Rattle.problem_data.specs.Limits.{largest, unlimited};
ghost use Rattle.vrp_num.specs.Rounding.{rounded};
ghost use Rattle.vrplib_model.specs.Numbers.{◌|>◌, number_or, too_large_rule, number_in, is_minus_one, is_minus_one_token, at_least_zero, as_whole, checked, at_most, as_number, held_value, field_value, IsHeldField};
ghost use Rattle.vrplib_model.specs.declared.rule.Rule.TheVariants.{BadNumber, Limit};

use problem_data::LARGEST;
use vrp_num::{Decimal, NumberFault, Rounding, Spelled, round};
use vrplib_model::{Field, Rule};

/// How many millionths -1 is.
const MINUS_ONE: i64 = -1_000_000;

/// The number of a token in a field, or the rule that it breaks.
#[tactic(auto, unfolding(vrplib_model::specs::Numbers::field_value))]
pub(crate) fn field_value(mode: Rounding, field: Field, token: &[u8]) -> Result<i64, Rule>
    requires { IsHeldField field }
    ensures { result ≡ field_value mode field token.now }
{
    match number_in(field, token) {
        Ok(micro) => held_value(mode, field, micro),
        Err(rule) => Err(rule),
    }
}

/// The token's number is -1.
pub fn is_minus_one_token(token: &[u8]) -> bool
    ensures { result ≡ is_minus_one_token token.now }
{
    match Decimal::read(token) {
        Ok(decimal) => is_minus_one(decimal.micro),
        Err(_) => false,
    }
}

/// The number of a token in a field in millionths, or the rule that it breaks.
fn number_in(field: Field, token: &[u8]) -> Result<i64, Rule>
    ensures { result ≡ number_in field token.now }
{
    match Spelled::of(token) {
        Some(spelled) => number_or(too_large_rule(field, spelled), spelled.decimal),
        None => Err(Rule::BadNumber),
    }
}

/// The number in millionths, or the rule that its refusal breaks, `too_large` for one that is too large.
fn number_or(too_large: Rule, number: Result<Decimal, NumberFault>) -> Result<i64, Rule>
    ensures { result ≡ number_or too_large number }
{
    match number {
        Ok(decimal) => Ok(decimal.micro),
        Err(NumberFault::TooLarge) => Err(too_large),
        Err(_) => Err(Rule::BadNumber),
    }
}

/// The rule that a token breaks whose number is too large: its sign and its being whole are judged before its size.
fn too_large_rule(field: Field, number: Spelled) -> Rule
    ensures { result ≡ too_large_rule field number.is_negative number.is_whole }
{
    match field {
        Field::Coordinate => Rule::Limit,
        Field::Exactly(_) => Rule::BadNumber,
        Field::Rounded(_) | Field::RoundedOr(_, _) => bad_number_or_limit(number.is_negative),
        Field::Number | Field::Whole(_) | Field::Between(_, _) | Field::NodeOrEnd => {
            bad_number_or_limit(number.is_negative || !number.is_whole)
        }
    }
}

fn bad_number_or_limit(is_bad: bool) -> Rule
    ensures { result ≡ (if is_bad then BadNumber else Limit) }
{
    if is_bad { Rule::BadNumber } else { Rule::Limit }
}

fn is_minus_one(micro: i64) -> bool
    ensures { result ≡ is_minus_one micro }
{
    micro == MINUS_ONE
}

/// A number in millionths that isn't negative.
fn at_least_zero(micro: i64) -> Result<u64, Rule>
    ensures value { result ≡ at_least_zero micro }
    ensures bound { IfOk result (λ n. n < 2 ^ 63) }
{
    if micro < 0 {
        Err(Rule::BadNumber)
    } else {
        Ok(micro.unsigned_abs())
    }
}

/// A number in millionths that is whole and isn't negative.
fn whole(micro: i64) -> Result<u64, Rule>
    ensures value { result ≡ (at_least_zero micro |> as_whole) }
    ensures bound { IfOk result (λ n. n < 2 ^ 63) }
{
    let size = at_least_zero(micro)?;
    if size % 1_000_000 == 0 {
        Ok(size / 1_000_000)
    } else {
        Err(Rule::BadNumber)
    }
}

/// The number, where it passes a test, or else the rule that it breaks.
fn checked(number: u64, passes: bool, rule: Rule) -> Result<i64, Rule>
    requires { number < 2 ^ 63 }
    ensures { result ≡ (if passes then as_number number else Err rule) }
{
    if passes { Ok(number as i64) } else { Err(rule) }
}

/// A whole number.
fn whole_number(micro: i64) -> Result<i64, Rule>
    ensures { result ≡ (at_least_zero micro |> as_whole |> as_number) }
{
    match whole(micro) {
        Ok(number) => Ok(number as i64),
        Err(rule) => Err(rule),
    }
}

/// A whole number that is this one.
fn exactly(micro: i64, number: u64) -> Result<i64, Rule>
    ensures { result ≡ (at_least_zero micro |> as_whole |> checked BadNumber (λ m. m == number) |> as_number) }
{
    match whole(micro) {
        Ok(value) => checked(value, value == number, Rule::BadNumber),
        Err(rule) => Err(rule),
    }
}

/// A whole number of at most the limit.
fn whole_up_to(micro: i64, limit: u64) -> Result<i64, Rule>
    ensures { result ≡ (at_least_zero micro |> as_whole |> at_most limit |> as_number) }
{
    match whole(micro) {
        Ok(number) => checked(number, number <= limit, Rule::Limit),
        Err(rule) => Err(rule),
    }
}

/// A whole number from the first limit to the second.
fn whole_between(micro: i64, low: u64, high: u64) -> Result<i64, Rule>
    ensures { result ≡ (at_least_zero micro |> as_whole |> checked Limit (λ m. nat_le low m && nat_le m high) |> as_number) }
{
    match whole(micro) {
        Ok(number) => checked(number, low <= number && number <= high, Rule::Limit),
        Err(rule) => Err(rule),
    }
}

/// A number that is rounded, and is then at most the limit.
fn rounded(mode: Rounding, micro: i64, limit: u64) -> Result<i64, Rule>
    requires { limit ≤ unlimited }
    ensures { result ≡ (at_least_zero micro |> (λ m. at_most limit (rounded mode m)) |> as_number) }
{
    if micro < 0 {
        return Err(Rule::BadNumber);
    }
    let number = round(mode, Decimal { micro });
    if number <= limit {
        Ok(number as i64)
    } else {
        Err(Rule::Limit)
    }
}

/// A number that is rounded, and is then at most the limit, or -1, which stands for the other number.
fn rounded_or(mode: Rounding, micro: i64, limit: u64, other: u64) -> Result<i64, Rule>
    requires limit { limit ≤ unlimited }
    requires other { other ≤ unlimited }
    ensures { result ≡ (if is_minus_one micro then as_number other else (at_least_zero micro |> (λ m. at_most limit (rounded mode m)) |> as_number)) }
{
    if is_minus_one(micro) {
        Ok(other as i64)
    } else {
        rounded(mode, micro, limit)
    }
}

/// A number of at most a million in size, in millionths.
fn coordinate(micro: i64) -> Result<i64, Rule>
    ensures { result ≡ (if nat_le (nat_abs micro) largest then Ok micro else Err Limit) }
{
    if micro.unsigned_abs() <= LARGEST {
        Ok(micro)
    } else {
        Err(Rule::Limit)
    }
}

/// A whole number, or -1.
fn node_or_end(micro: i64) -> Result<i64, Rule>
    ensures { result ≡ (if is_minus_one micro then Ok (negsuc 0) else (at_least_zero micro |> as_whole |> as_number)) }
{
    if is_minus_one(micro) {
        Ok(-1)
    } else {
        whole_number(micro)
    }
}

/// A number in millionths as the field holds it, or the rule that it breaks.
fn held_value(mode: Rounding, field: Field, micro: i64) -> Result<i64, Rule>
    requires { IsHeldField field }
    ensures { result ≡ held_value mode field micro }
{
    match field {
        Field::Number => whole_number(micro),
        Field::Exactly(number) => exactly(micro, number),
        Field::Whole(limit) => whole_up_to(micro, limit),
        Field::Between(low, high) => whole_between(micro, low, high),
        Field::Rounded(limit) => rounded(mode, micro, limit),
        Field::RoundedOr(limit, other) => rounded_or(mode, micro, limit, other),
        Field::Coordinate => coordinate(micro),
        Field::NodeOrEnd => node_or_end(micro),
    }
}
