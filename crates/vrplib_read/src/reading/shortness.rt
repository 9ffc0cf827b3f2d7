//! Whether the section that is open has too few rows or numbers.
ghost use Rattle.std.specs.Prelude.{◌≡◌, flat_map, if◌then◌else◌, length, nat_lt, unwrap_or};
ghost use Rattle.std.specs.Option.{option_copied, option_map_or};
ghost use Rattle.indexmap.specs.IndexMap.{get};
ghost use Rattle.vrplib_model.specs.declared.section.Section.TheVariants.{EdgeWeight as edge_weight_section};
ghost use Rattle.vrplib_model.specs.Sections.{is_by_node, same_section};
ghost use Rattle.vrplib_model.specs.Rows.{rows_of};
ghost use Rattle.vrplib_read.specs.inside.OfText.{OfText};
ghost use Rattle.vrplib_model.specs.Values.{node_count};
ghost use Rattle.vrplib_model.specs.WordFaults.{is_section_short, is_short};

use crate::reading::Reading;
use vrplib_model::{Position, Section};
use vrplib_rows::Rows;

/// Whether the section has exactly one row for each node.
fn is_by_node(section: Section) -> bool
    ensures { result ≡ is_by_node section }
{
    match section {
        Section::NodeCoord
        | Section::Demand
        | Section::Backhaul
        | Section::TimeWindow
        | Section::ServiceTime
        | Section::ReleaseTime
        | Section::Prize => true,
        Section::EdgeWeight
        | Section::Depot
        | Section::Group
        | Section::Profile
        | Section::VehicleTypes => false,
    }
}

impl Reading {
    /// The rows of a section, where a line opened it.
    pub(crate) fn rows_of(&self, section: Section) -> Option<&Rows>
        ensures { option_copied result ≡ get same_section self.now.sections section }
    {
        self.sections.get(&section)
    }

    /// How many rows of a section there are.
    fn row_count(&self, section: Section) -> usize
        ensures { result ≡ option_map_or (λ l. length l.rows) (get same_section self.now.sections section) 0 }
    {
        match self.rows_of(section) {
            None => 0,
            Some(rows) => rows.count(),
        }
    }

    /// How many numbers of a section there are.
    fn number_count(&self, section: Section) -> usize
        ensures { result ≡ option_map_or (λ l. length (flat_map (λ row. row) l.rows)) (get same_section self.now.sections section) 0 }
    {
        match self.rows_of(section) {
            None => 0,
            Some(rows) => rows.numbers().len(),
        }
    }

    /// How many rows a section that isn't of legs must have at least.
    fn least_rows(&self, section: Section) -> usize
        ensures { result ≡ (if is_by_node section then unwrap_or self.now.keywords.dimension 0 else 1) }
    {
        if is_by_node(section) {
            self.keywords.nodes() as usize
        } else {
            1
        }
    }

    /// Whether the legs in the text have too few numbers.
    fn are_weights_short(&self) -> bool
        ensures { OfText self.now (λ before. result ≡ is_section_short self.now.mode edge_weight_section before) }
    {
        (self.number_count(Section::EdgeWeight) as u64) < self.keywords.weight_count()
    }

    /// Whether a section that isn't of legs has too few rows.
    fn are_rows_short(&self, section: Section) -> bool
        ensures { OfText self.now (λ before. result ≡ nat_lt (length (rows_of self.now.mode section before)) (if is_by_node section then node_count self.now.mode before else 1)) }
    {
        self.row_count(section) < self.least_rows(section)
    }

    /// Whether the section has too few rows or numbers.
    fn is_section_short(&self, section: Section) -> bool
        ensures { OfText self.now (λ before. result ≡ is_section_short self.now.mode section before) }
    {
        match section {
            Section::EdgeWeight => self.are_weights_short(),
            Section::Depot => false,
            _ => self.are_rows_short(section),
        }
    }

    /// Whether the section that is open has too few rows or numbers.
    pub(crate) fn is_short(&self) -> bool
        ensures { OfText self.now (λ before. result ≡ is_short self.now.mode before) }
    {
        match self.position {
            Position::Within(section) => self.is_section_short(section),
            Position::Outside | Position::PassedOver => false,
        }
    }
}
