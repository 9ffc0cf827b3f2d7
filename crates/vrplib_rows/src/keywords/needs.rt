//! What the keywords above a section must say, and what they say of its rows.
ghost use Rattle.std.specs.Prelude.{◌≡◌, ◌*◌, ◌≤◌, ◌&&◌, ◌||◌, not, [], ◌∷◌, IsSome, unwrap_or};
ghost use Rattle.problem_data.specs.Limits.{most_places};
ghost use Rattle.vrplib_model.specs.declared.position.Position.TheVariants.{Within};
ghost use Rattle.vrplib_model.specs.declared.rule.Key.TheVariants.{EdgeWeightFormat, EdgeWeightType};
ghost use Rattle.vrplib_model.specs.declared.rule.Rule.TheVariants.{Missing};
ghost use Rattle.vrplib_rows.specs.declared.weight_format.WeightFormat.TheVariants.{FullMatrix, LowerRow, UpperRow};
ghost use Rattle.vrplib_rows.specs.declared.weight_type.WeightType.TheVariants.{Euclidean, Explicit};
ghost use Rattle.vrplib_model.specs.Checks.{broken_if, first_of};
ghost use Rattle.vrplib_rows.specs.KnownKeywords.{is_format, is_weight_type, ForLines};
ghost use Rattle.vrplib_model.specs.declared.keyword.Keyword.TheVariants.{EdgeWeightFormat as edge_weight_format, EdgeWeightType as edge_weight_type};
ghost use Rattle.vrplib_model.specs.Rows.{opened};
ghost use Rattle.vrplib_model.specs.declared.section.Section.{Section};
ghost use Rattle.vrplib_model.specs.declared.section.Section.TheVariants.{EdgeWeight as edge_weight_section};
ghost use Rattle.vrplib_model.specs.Values.{has_keyword, is_explicit};
ghost use Rattle.vrplib_model.specs.WordFaults.{is_unsupported_section, section_lacks, weight_count};

use crate::keywords::Keywords;
use crate::weight_format::WeightFormat;
use crate::weight_type::WeightType;
use vrplib_model::{Key, Keyword, Position, Rule, Section};

impl Keywords {
    /// The number of nodes, or 0 where no line gave it.
    pub fn nodes(&self) -> u32
        ensures value { result ≡ unwrap_or self.now.dimension 0 }
        ensures limit { result ≤ most_places }
    {
        self.dimension.unwrap_or(0)
    }

    /// How many numbers the legs in the text have.
    pub fn weight_count(&self) -> u64
        ensures value { ForLines self.now (λ mode before. result ≡ weight_count mode before) }
        ensures limit { result ≤ most_places * most_places }
    {
        let nodes = u64::from(self.nodes());
        if matches!(self.weight_format, Some(WeightFormat::FullMatrix)) {
            nodes * nodes
        } else {
            nodes * nodes.saturating_sub(1) / 2
        }
    }

    /// Whether the legs come from the coordinates.
    fn is_euclidean(&self) -> bool
        ensures { result ≡ is_weight_type Euclidean self.now.weight_type }
    {
        matches!(self.weight_type, Some(WeightType::Euclidean))
    }

    /// Whether the legs come from the text.
    fn is_explicit(&self) -> bool
        ensures { result ≡ is_weight_type Explicit self.now.weight_type }
    {
        matches!(self.weight_type, Some(WeightType::Explicit))
    }

    /// Whether the format of legs is one that is read.
    fn has_known_format(&self) -> bool
        ensures { result ≡ (is_format FullMatrix self.now.weight_format || is_format LowerRow self.now.weight_format
            || is_format UpperRow self.now.weight_format) }
    {
        match self.weight_format {
            None | Some(WeightFormat::Other) => false,
            Some(WeightFormat::FullMatrix | WeightFormat::LowerRow | WeightFormat::UpperRow) =>
                true,
        }
    }

    /// What a section with legs lacks above it, beside the dimension.
    fn weights_lack(&self) -> Option<Rule>
        ensures { ForLines self.now (λ mode before. result ≡ first_of (
            broken_if (not (has_keyword edge_weight_type before)) (Missing EdgeWeightType)
            ∷ broken_if (is_explicit before && not (has_keyword edge_weight_format before)) (Missing EdgeWeightFormat) ∷ [])) }
    {
        if !self.is_given(Keyword::EdgeWeightType) {
            Some(Rule::Missing(Key::EdgeWeightType))
        } else if self.is_explicit() && !self.is_given(Keyword::EdgeWeightFormat) {
            Some(Rule::Missing(Key::EdgeWeightFormat))
        } else {
            None
        }
    }

    /// What a known section lacks above it.
    fn known_section_lacks(&self, section: Section) -> Option<Rule>
        ensures value { ForLines self.now (λ mode before. result ≡ section_lacks (Some section) before) }
        ensures dimension { result ≡ None → IsSome self.now.dimension }
    {
        if !self.is_given(Keyword::Dimension) {
            return Some(Rule::Missing(Key::Dimension));
        }
        match section {
            Section::EdgeWeight => self.weights_lack(),
            _ => None,
        }
    }

    /// What a section lacks above it.
    pub fn section_lacks(&self, section: Option<Section>) -> Option<Rule>
        ensures value { ForLines self.now (λ mode before. result ≡ section_lacks section before) }
        ensures dimension { result ≡ None → IsSome section → IsSome self.now.dimension }
    {
        match section {
            None => None,
            Some(section) => self.known_section_lacks(section),
        }
    }

    /// Whether a section comes under a value that isn't supported.
    pub fn is_unsupported_section(&self, section: Option<Section>) -> bool
        ensures { ForLines self.now (λ mode before. result ≡ is_unsupported_section section before) }
    {
        match section {
            Some(Section::EdgeWeight) => self.is_explicit() && !self.has_known_format(),
            _ => false,
        }
    }

    /// Where the line behind that of legs in the text stands.
    fn weights_opened(&self) -> Position
        ensures value { ForLines self.now (λ mode before. result ≡ opened (Some edge_weight_section) before) }
        ensures within { (s : Section) → result ≡ Within s → s ≡ edge_weight_section }
    {
        if self.is_euclidean() {
            Position::PassedOver
        } else {
            Position::Within(Section::EdgeWeight)
        }
    }

    /// Where the line behind a known section's stands.
    fn known_opened(&self, section: Section) -> Position
        ensures value { ForLines self.now (λ mode before. result ≡ opened (Some section) before) }
        ensures within { (s : Section) → result ≡ Within s → s ≡ section }
    {
        match section {
            Section::EdgeWeight => self.weights_opened(),
            _ => Position::Within(section),
        }
    }

    /// Where the line behind a section's stands.
    pub fn opened(&self, section: Option<Section>) -> Position
        ensures value { ForLines self.now (λ mode before. result ≡ opened section before) }
        ensures within { (s : Section) → result ≡ Within s → section ≡ Some s }
    {
        match section {
            None => Position::PassedOver,
            Some(section) => self.known_opened(section),
        }
    }
}
