//! A row of numbers.
ghost use Rattle.std.specs.Prelude.{◌≡◌, IfOk, option_map, if◌then◌else◌};
ghost use Rattle.std.specs.List.{list_any};
ghost use Rattle.indexmap.specs.IndexMap.{get};
ghost use Rattle.vrplib_model.specs.declared.position.Position.TheVariants.{Within};
ghost use Rattle.vrplib_model.specs.LineKinds.{row};
ghost use Rattle.vrplib_model.specs.Lines.{tokens};
ghost use Rattle.vrplib_model.specs.Numbers.{is_minus_one_token};
ghost use Rattle.vrplib_model.specs.RowFaults.{row_fault};
ghost use Rattle.vrplib_model.specs.Rows.{after_row};
ghost use Rattle.vrplib_model.specs.declared.section.Section.{Section};
ghost use Rattle.vrplib_model.specs.declared.section.Section.TheVariants.{Depot as depot_section};
ghost use Rattle.vrplib_model.specs.Sections.{same_section};
ghost use Rattle.vrplib_read.specs.inside.OfText.{OfText};
ghost use Rattle.vrplib_read.specs.inside.Steps.{Judges, with_row};

use crate::reading::Reading;
use crate::reading::section_map::add_row;
use std::alloc::AllocError;
use vrplib_model::{Position, Rule, Section};
use vrplib_rows::{is_minus_one_token, next_token};

/// Whether some token of a row is -1.
fn has_minus_one(line: &[u8]) -> bool
    ensures { result ≡ list_any is_minus_one_token (tokens line.now) }
{
    let mut rest = line;
    while let Some((token, behind)) = next_token(rest) {
        if is_minus_one_token(token) {
            return true;
        }
        rest = behind;
    }
    false
}

/// Where the line behind a row of the section of depots stands.
fn depot_position_behind(line: &[u8]) -> Position
    ensures { result ≡ after_row (tokens line.now) (Within depot_section) }
{
    if has_minus_one(line) {
        Position::Outside
    } else {
        Position::Within(Section::Depot)
    }
}

/// Where the line behind a row of the section stands: -1 closes the section of depots.
fn position_behind(section: Section, line: &[u8]) -> Position
    ensures { result ≡ after_row (tokens line.now) (Within section) }
{
    match section {
        Section::Depot => depot_position_behind(line),
        _ => Position::Within(section),
    }
}

impl Reading {
    /// Adds a faultless row to the section that is open, or names the first check that it fails.
    fn add_row(&mut self, section: Section, line: &[u8]) -> Result<Option<Rule>, AllocError>
        requires { self.old.position ≡ Within section }
        ensures same { (self.new.mode ≡ self.old.mode) × (self.new.keywords ≡ self.old.keywords) × (self.new.position ≡ self.old.position) }
        ensures fault { IfOk result (λ fault. OfText self.old (λ before. fault ≡ row_fault self.old.mode section (tokens line.now) before)) }
        ensures added { result ≡ Ok None → (s : Section) → get same_section self.new.sections s ≡ (if same_section section s
            then option_map (with_row self.old.mode (tokens line.now)) (get same_section self.old.sections section) else get same_section self.old.sections s) }
    {
        let weights = self.keywords.weight_count();
        add_row(&mut self.sections, section, self.mode, weights, line)
    }

    /// The first fault of a row of the section that is open; a faultless row is kept.
    fn read_row_within(&mut self, section: Section, line: &[u8]) -> Result<Option<Rule>, AllocError>
        requires { self.old.position ≡ Within section }
        ensures { IfOk result (λ fault. OfText self.old (Judges self.old (row (tokens line.now)) fault self.new)) }
    {
        let fault = self.add_row(section, line)?;
        self.position = position_behind(section, line);
        Ok(fault)
    }

    /// The first fault of a row of numbers; a faultless row of a section that is read is kept.
    pub(super) fn read_row(&mut self, line: &[u8]) -> Result<Option<Rule>, AllocError>
        ensures { IfOk result (λ fault. OfText self.old (Judges self.old (row (tokens line.now)) fault self.new)) }
    {
        match self.position {
            Position::Outside => Ok(Some(Rule::NoKeyword)),
            Position::PassedOver => Ok(None),
            Position::Within(section) => self.read_row_within(section, line),
        }
    }
}
