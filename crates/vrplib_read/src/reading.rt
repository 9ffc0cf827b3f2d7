//! What is kept of the lines read so far.
ghost use Rattle.std.specs.Prelude.{◌≡◌, true, is_some, unwrap_or};
ghost use Rattle.std.specs.Option.{ForSome};
ghost use Rattle.indexmap.specs.IndexMap.{get};
ghost use Rattle.vrplib_model.specs.declared.position.Position.TheVariants.{Within};
ghost use Rattle.vrplib_model.specs.declared.section.Section.{Section};
ghost use Rattle.vrplib_model.specs.Sections.{same_section};

mod keyword_line;
mod row_line;
mod section_line;
mod section_map;
mod shortness;

use indexmap::IndexMap;
use std::alloc::{AllocError, Global};
use vrp_num::Rounding;
use vrplib_model::{Position, Rule, Section};
use vrplib_rows::{Keywords, Line, Rows, line_of};

/// What the reader keeps of the lines read so far: the values of keywords, and the sections with their rows, in the order of the
/// file.
#[derive(Drop)]
pub(crate) struct Reading {
    pub mode: Rounding,
    /// Where the next line stands.
    pub position: Position,
    pub keywords: Keywords,
    pub sections: IndexMap<Section, Rows>,
    ghost keyed: { (s : Section) → ForSome (get same_section sections s) (λ rows. (rows.section ≡ s) × (rows.nodes ≡ unwrap_or keywords.dimension 0)) },
    ghost sized: { (s : Section) → ForSome (get same_section sections s) (λ rows. is_some keywords.dimension ≡ true) },
    ghost opened: { (s : Section) → position ≡ Within s → is_some (get same_section sections s) ≡ true },
}

impl Reading {
    ghost use Rattle.std.specs.Prelude.{[], IfOk};
    ghost use Rattle.vrplib_model.specs.declared.rule.Rule.TheVariants.{RowCount};
    ghost use Rattle.vrplib_model.specs.Checks.{broken_if};
    ghost use Rattle.vrplib_model.specs.LineKinds.{word_line};
    ghost use Rattle.vrplib_rows.specs.Told.{told};
    ghost use Rattle.vrplib_read.specs.inside.Stands.{Stands};
    ghost use Rattle.vrplib_read.specs.inside.OfText.{OfText};
    ghost use Rattle.vrplib_read.specs.inside.Steps.{Judges, JudgesText};
    ghost use Rattle.vrplib_model.specs.WordFaults.{is_short};

    /// Nothing: no line was read.
    pub(crate) fn new(alloc: Global, mode: Rounding) -> Reading
        ensures { Stands mode [] result }
    {
        Reading {
            mode,
            position: Position::Outside,
            keywords: Keywords::new(),
            sections: IndexMap::new(alloc),
        }
    }

    /// The fault of the line `EOF`, or of the text's end: either ends the section that is open.
    pub(crate) fn end_fault(&self) -> Option<Rule>
        ensures { OfText self.now (λ before. result ≡ broken_if (is_short self.now.mode before) RowCount) }
    {
        if self.is_short() {
            Some(Rule::RowCount)
        } else {
            None
        }
    }

    /// The fault of a line of words that is neither a section's nor a keyword's: it may stand in a section that is passed over.
    fn word_fault(&self) -> Option<Rule>
        ensures { OfText self.now (Judges self.now word_line result self.now) }
    {
        match self.position {
            Position::PassedOver => None,
            Position::Outside | Position::Within(_) => Some(Rule::NoKeyword),
        }
    }

    /// The first fault of a line, whatever its bytes are; a faultless line is kept.
    fn read_kind(&mut self, alloc: Global, line: Line<'_>) -> Result<Option<Rule>, AllocError>
        ensures { IfOk result (λ fault. OfText self.old (Judges self.old (told line.entry) fault self.new)) }
    {
        match line {
            Line::Empty => Ok(None),
            Line::EndOfFile => Ok(self.end_fault()),
            Line::Section(key) => self.read_section(alloc, key),
            Line::Keyword(key, value) => Ok(self.read_keyword(key, value)),
            Line::Word => Ok(self.word_fault()),
            Line::Row(row) => self.read_row(row),
        }
    }

    /// The first fault of a line of the text, judged by the lines before it; a faultless line is kept.
    pub(crate) fn read_line(
        &mut self,
        alloc: Global,
        text: &[u8],
    ) -> Result<Option<Rule>, AllocError>
        ensures { IfOk result (λ fault. OfText self.old (JudgesText self.old text.now fault self.new)) }
    {
        if text.contains(&0) {
            return Ok(Some(Rule::NotText));
        }
        self.read_kind(alloc, line_of(text))
    }
}
