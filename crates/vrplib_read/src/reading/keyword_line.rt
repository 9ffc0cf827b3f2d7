//! A keyword's line.
ghost use Rattle.vrplib_model.specs.LineKinds.{keyword_line};
ghost use Rattle.vrplib_model.specs.Lines.{tokens};
ghost use Rattle.vrplib_read.specs.inside.OfText.{OfText};
ghost use Rattle.vrplib_read.specs.inside.Steps.{Judges};

use crate::reading::Reading;
use vrplib_model::{Position, Rule};

impl Reading {
    /// The first fault of a keyword's line, which ends the section that is open; the value of a faultless one is kept.
    pub(super) fn read_keyword(&mut self, key: &[u8], value: &[u8]) -> Option<Rule>
        ensures { OfText self.old (Judges self.old (keyword_line key.now (tokens value.now)) result self.new) }
    {
        if self.is_short() {
            return Some(Rule::RowCount);
        }
        self.position = Position::Outside;
        self.keywords.read_line(self.mode, key, value)
    }
}
