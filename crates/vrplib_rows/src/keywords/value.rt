//! The value of one keyword.
ghost use Rattle.std.specs.Prelude.{◌≡◌, ◌≢◌, [], ◌∷◌, IsTrue, Some, None, Ok, Err, pos, MatchOption, MatchResult, length, codes, bytes_eq};
ghost use Rattle.vrplib_model.specs.Lines.{tokens};
ghost use Rattle.vrplib_model.specs.Numbers.{IsHeldField, field_value};
ghost use Rattle.vrplib_rows.specs.inside.KeywordValues.{IsWithin, is_quantity};
ghost use Rattle.vrplib_rows.specs.declared.weight_format.WeightFormat.TheVariants.{FullMatrix, LowerRow, UpperRow};
ghost use Rattle.vrplib_rows.specs.declared.weight_type.WeightType.TheVariants.{Euclidean, Explicit};
ghost use Rattle.vrplib_rows.specs.KnownKeywords.{is_format, is_weight_type};
ghost use Rattle.vrplib_model.specs.WordFaults.{is_known_type, is_unsupported_value};

use crate::numbers::field_value;
use crate::tokens::next_token;
use crate::weight_format::WeightFormat;
use crate::weight_type::WeightType;
use vrp_num::Rounding;
use vrplib_model::{Field, Keyword, Rule};

/// The one token of a value.
pub(super) fn only_token(value: &[u8]) -> Option<&[u8]>
    ensures { MatchOption result (length (tokens value.now) ≢ 1) (λ token. tokens value.now ≡ token.now ∷ []) }
{
    let (token, rest) = next_token(value)?;
    match next_token(rest) {
        None => Some(token),
        Some(_) => None,
    }
}

/// A token's number in a field without negative numbers, or the rule that it breaks.
pub(super) fn number(mode: Rounding, field: Field, token: &[u8]) -> Result<u64, Rule>
    requires quantity { IsTrue (is_quantity field) }
    requires held { IsHeldField field }
    ensures { MatchResult result (λ n. (field_value mode field token.now ≡ Ok (pos n)) × IsWithin field n)
        (λ rule. field_value mode field token.now ≡ Err rule) }
{
    match field_value(mode, field, token) {
        Ok(number) => Ok(number.unsigned_abs()),
        Err(rule) => Err(rule),
    }
}

/// The type of legs that a token names.
pub(super) fn weight_type(token: &[u8]) -> Option<WeightType>
    ensures euclidean { is_weight_type Euclidean result ≡ bytes_eq (codes "EUC_2D") token.now }
    ensures explicit { is_weight_type Explicit result ≡ bytes_eq (codes "EXPLICIT") token.now }
{
    if token == b"EUC_2D".as_slice() {
        Some(WeightType::Euclidean)
    } else if token == b"EXPLICIT".as_slice() {
        Some(WeightType::Explicit)
    } else {
        None
    }
}

/// The format of legs that a token names.
pub(super) fn weight_format(token: &[u8]) -> WeightFormat
    ensures full { is_format FullMatrix (Some result) ≡ bytes_eq (codes "FULL_MATRIX") token.now }
    ensures lower { is_format LowerRow (Some result) ≡ bytes_eq (codes "LOWER_ROW") token.now }
    ensures upper { is_format UpperRow (Some result) ≡ bytes_eq (codes "UPPER_ROW") token.now }
{
    if token == b"FULL_MATRIX".as_slice() {
        WeightFormat::FullMatrix
    } else if token == b"LOWER_ROW".as_slice() {
        WeightFormat::LowerRow
    } else if token == b"UPPER_ROW".as_slice() {
        WeightFormat::UpperRow
    } else {
        WeightFormat::Other
    }
}

/// Whether a keyword's value isn't supported: a type of legs that isn't known.
pub(super) fn is_unsupported_value(keyword: Option<Keyword>, value: &[u8]) -> bool
    ensures { result ≡ is_unsupported_value keyword (tokens value.now) }
{
    match keyword {
        Some(Keyword::EdgeWeightType) => !is_known_type(value),
        _ => false,
    }
}

/// Whether a value is one token that names a type of legs.
fn is_known_type(value: &[u8]) -> bool
    ensures { result ≡ is_known_type (tokens value.now) }
{
    match only_token(value) {
        None => false,
        Some(token) => weight_type(token).is_some(),
    }
}
