//! The values of the keywords read so far.
ghost use Rattle.std.specs.Prelude.{◌^◌, ◌≤◌};
ghost use Rattle.std.specs.Option.{ForSome};
ghost use Rattle.problem_data.specs.Limits.{largest, most_places, most_vehicles};

mod needs;
mod value;

use crate::weight_format::WeightFormat;
use crate::weight_type::WeightType;
use problem_data::{LARGEST, MOST_PLACES, MOST_VEHICLES};
use value::{is_unsupported_value, number, only_token, weight_format, weight_type};
use vrp_num::Rounding;
use vrplib_model::{Field, Keyword, Rule, is_distance, is_of_vehicles};

/// The values of the keywords read so far, each where a line gave it.
#[derive(Clone, Copy, Debug, PartialEq, Eq)]
pub struct Keywords {
    /// The number of nodes.
    pub dimension: Option<u32>,
    pub weight_type: Option<WeightType>,
    pub weight_format: Option<WeightFormat>,
    /// What a vehicle carries.
    pub capacity: Option<u64>,
    /// How many vehicles there are.
    pub vehicles: Option<u32>,
    /// How long service takes at each client.
    pub service_time: Option<u64>,
    /// The longest route in time.
    pub max_duration: Option<u64>,
    /// The longest route in distance.
    pub max_distance: Option<u64>,
    ghost node_limits: { ForSome dimension (λ n. (2 ≤ n) × (n ≤ most_places)) },
    ghost capacity_limit: { ForSome capacity (λ n. n ≤ largest) },
    ghost vehicle_limits: { ForSome vehicles (λ n. (1 ≤ n) × (n ≤ most_vehicles)) },
    ghost service_limit: { ForSome service_time (λ n. n ≤ largest) },
    ghost duration_limit: { ForSome max_duration (λ n. n ≤ largest) },
    ghost distance_limit: { ForSome max_distance (λ n. n ≤ largest) },
}

impl Keywords {
    ghost use Rattle.std.specs.Prelude.{◌≡◌, ◌≢◌, ◌||◌, List, [], ◌∷◌, false, IsSome, MatchResult};
    ghost use Rattle.std.specs.Option.{option_map_or};
    ghost use Rattle.vrp_num.specs.declared.rounding.Rounding.{Rounding};
    ghost use Rattle.vrplib_model.specs.declared.keyword.Keyword.TheVariants.{Dimension};
    ghost use Rattle.vrplib_model.specs.declared.rule.Rule.TheVariants.{Repeated, Unsupported};
    ghost use Rattle.vrplib_model.specs.Checks.{broken_if, first_of};
    ghost use Rattle.vrplib_rows.specs.KnownKeywords.{KnowsKeywords, is_given, ForLines, keyword_line_fault};
    ghost use Rattle.vrplib_model.specs.Keywords.{is_distance, is_of_vehicles, keyword_of};
    ghost use Rattle.vrplib_model.specs.Lines.{tokens};
    ghost use Rattle.vrplib_model.specs.LineKinds.{Line, keyword_line};
    ghost use Rattle.vrplib_rows.specs.inside.KeywordValues.{AddsValue};
    ghost use Rattle.vrplib_model.specs.Values.{value_rule};
    ghost use Rattle.vrplib_model.specs.WordFaults.{is_unsupported_value, known_value_rule, repeats_keyword};

    /// No value: no line was read.
    pub fn new() -> Keywords
        ensures { (mode : Rounding) → KnowsKeywords mode [] result }
    {
        Keywords {
            dimension: None,
            weight_type: None,
            weight_format: None,
            capacity: None,
            vehicles: None,
            service_time: None,
            max_duration: None,
            max_distance: None,
        }
    }

    /// Whether a line gave the keyword.
    pub fn is_given(&self, keyword: Keyword) -> bool
        ensures { result ≡ is_given self.now keyword }
    {
        match keyword {
            Keyword::Dimension => self.dimension.is_some(),
            Keyword::EdgeWeightType => self.weight_type.is_some(),
            Keyword::EdgeWeightFormat => self.weight_format.is_some(),
            Keyword::Capacity => self.capacity.is_some(),
            Keyword::Vehicles => self.vehicles.is_some(),
            Keyword::ServiceTime => self.service_time.is_some(),
            Keyword::MaxDuration => self.max_duration.is_some(),
            Keyword::MaxDistance => self.max_distance.is_some(),
        }
    }

    /// Keeps a keyword's value of one token, or names the rule that it breaks.
    fn read_token(&mut self, mode: Rounding, keyword: Keyword, token: &[u8]) -> Result<(), Rule>
        requires { is_unsupported_value (Some keyword) (token.now ∷ []) ≡ false }
        ensures value { MatchResult result
            (λ _. (value_rule mode keyword (token.now ∷ []) ≡ None) × AddsValue mode keyword (token.now ∷ []) self.old self.new)
            (λ rule. value_rule mode keyword (token.now ∷ []) ≡ Some rule) }
        ensures dimension { keyword ≢ Dimension → self.new.dimension ≡ self.old.dimension }
    {
        match keyword {
            Keyword::Dimension => {
                self.dimension = Some(
                    number(mode, Field::Between(2, u64::from(MOST_PLACES)), token)? as u32,
                );
            }
            Keyword::EdgeWeightType => self.weight_type = weight_type(token),
            Keyword::EdgeWeightFormat => self.weight_format = Some(weight_format(token)),
            Keyword::Capacity => self.capacity = Some(number(mode, Field::Whole(LARGEST), token)?),
            Keyword::Vehicles => {
                self.vehicles = Some(
                    number(mode, Field::Between(1, u64::from(MOST_VEHICLES)), token)? as u32,
                );
            }
            Keyword::ServiceTime => {
                self.service_time = Some(number(mode, Field::Rounded(LARGEST), token)?);
            }
            Keyword::MaxDuration => {
                self.max_duration = Some(number(mode, Field::Rounded(LARGEST), token)?);
            }
            Keyword::MaxDistance => {
                self.max_distance = Some(number(mode, Field::Rounded(LARGEST), token)?);
            }
        }
        Ok(())
    }

    /// Keeps a keyword's value, or names the rule that it breaks.
    fn read_value(&mut self, mode: Rounding, keyword: Keyword, value: &[u8]) -> Option<Rule>
        requires { is_unsupported_value (Some keyword) (tokens value.now) ≡ false }
        ensures fault { result ≡ value_rule mode keyword (tokens value.now) }
        ensures kept { result ≡ None → AddsValue mode keyword (tokens value.now) self.old self.new }
        ensures dimension { keyword ≢ Dimension → self.new.dimension ≡ self.old.dimension }
    {
        match only_token(value) {
            None => Some(Rule::BadNumber),
            Some(token) => self.read_token(mode, keyword, token).err(),
        }
    }

    /// Whether the keyword comes again.
    fn is_repeated(&self, keyword: Option<Keyword>) -> bool
        ensures value { ForLines self.now (λ mode before. result ≡ repeats_keyword keyword before) }
        ensures given { result ≡ option_map_or (is_given self.now) keyword false }
    {
        match keyword {
            None => false,
            Some(keyword) => self.is_given(keyword),
        }
    }

    /// The first check that a keyword's line fails before its value is read.
    fn line_fault(&self, key: &[u8], keyword: Option<Keyword>, value: &[u8]) -> Option<Rule>
        ensures value { ForLines self.now (λ mode before. result ≡ first_of (
            broken_if (repeats_keyword keyword before) Repeated
            ∷ broken_if (is_distance key.now || is_of_vehicles key.now || is_unsupported_value keyword (tokens value.now)) Unsupported
            ∷ [])) }
        ensures given { result ≡ None → option_map_or (is_given self.now) keyword false ≡ false }
        ensures supported { result ≡ None → is_unsupported_value keyword (tokens value.now) ≡ false }
    {
        if self.is_repeated(keyword) {
            return Some(Rule::Repeated);
        }
        if is_distance(key) || is_of_vehicles(key) || is_unsupported_value(keyword, value) {
            return Some(Rule::Unsupported);
        }
        None
    }

    /// Keeps the value of a keyword that may be unknown, or names the rule that it breaks.
    fn read_known(
        &mut self,
        mode: Rounding,
        key: &[u8],
        keyword: Option<Keyword>,
        value: &[u8],
    ) -> Option<Rule>
        requires known { keyword ≡ keyword_of key.now }
        requires supported { is_unsupported_value keyword (tokens value.now) ≡ false }
        ensures fault { result ≡ known_value_rule mode keyword (tokens value.now) }
        ensures kept { result ≡ None → (before : List Line) → KnowsKeywords mode before self.old
            → KnowsKeywords mode (keyword_line key.now (tokens value.now) ∷ before) self.new }
        ensures dimension { keyword ≢ Some Dimension → self.new.dimension ≡ self.old.dimension }
    {
        match keyword {
            None => None,
            Some(keyword) => self.read_value(mode, keyword, value),
        }
    }

    /// Keeps the value of a keyword's line, or names the first rule that the line breaks.
    pub fn read_line(&mut self, mode: Rounding, key: &[u8], value: &[u8]) -> Option<Rule>
        ensures fault { (before : List Line) → KnowsKeywords mode before self.old → result ≡ keyword_line_fault mode key.now (tokens value.now) before }
        ensures kept { result ≡ None → (before : List Line) → KnowsKeywords mode before self.old
            → KnowsKeywords mode (keyword_line key.now (tokens value.now) ∷ before) self.new }
        ensures dimension { IsSome self.old.dimension → self.new.dimension ≡ self.old.dimension }
    {
        let keyword = Keyword::of_key(key);
        match self.line_fault(key, keyword, value) {
            Some(rule) => Some(rule),
            None => self.read_known(mode, key, keyword, value),
        }
    }
}
