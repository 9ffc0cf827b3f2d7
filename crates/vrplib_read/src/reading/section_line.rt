//! A section's line.
ghost use Rattle.std.specs.Prelude.{◌≡◌, ◌||◌, [], ◌∷◌, IfOk, IsSome, OnOk, false, unwrap_or};
ghost use Rattle.indexmap.specs.IndexMap.{get};
ghost use Rattle.vrplib_model.specs.declared.rule.Rule.TheVariants.{Unsupported};
ghost use Rattle.vrplib_model.specs.Checks.{broken_if};
ghost use Rattle.vrplib_model.specs.Keywords.{is_of_vehicles};
ghost use Rattle.vrplib_model.specs.LineKinds.{section_line};
ghost use Rattle.vrplib_model.specs.declared.section.Section.{Section};
ghost use Rattle.vrplib_model.specs.Sections.{same_section, section_of};
ghost use Rattle.vrplib_read.specs.inside.Stands.{Stands};
ghost use Rattle.vrplib_read.specs.inside.OfText.{OfText};
ghost use Rattle.vrplib_read.specs.inside.Steps.{Judges, fault_of_line, opened_rows};
ghost use Rattle.vrplib_model.specs.WordFaults.{is_unsupported_section, repeats_section};

use crate::reading::Reading;
use crate::reading::section_map::put_rows;
use std::alloc::{AllocError, Global};
use vrplib_model::{Rule, Section, is_of_vehicles};
use vrplib_rows::Rows;

impl Reading {
    /// Whether the section comes again.
    fn is_repeated(&self, section: Option<Section>) -> bool
        ensures { OfText self.now (λ before. result ≡ repeats_section section before) }
    {
        match section {
            None => false,
            Some(section) => self.rows_of(section).is_some(),
        }
    }

    /// The fault of a section's line that isn't supported.
    fn unsupported_fault(&self, key: &[u8], section: Option<Section>) -> Option<Rule>
        ensures { OfText self.now (λ before. result ≡ broken_if (is_of_vehicles key.now || is_unsupported_section section before) Unsupported) }
    {
        if is_of_vehicles(key) {
            Some(Rule::Unsupported)
        } else if self.keywords.is_unsupported_section(section) {
            Some(Rule::Unsupported)
        } else {
            None
        }
    }

    /// The first check that a section's line fails.
    fn section_fault(&self, key: &[u8], section: Option<Section>) -> Option<Rule>
        requires { section ≡ section_of key.now }
        ensures fault { OfText self.now (λ before. result ≡ fault_of_line self.now.mode (section_line key.now) before) }
        ensures dimension { result ≡ None → IsSome section → IsSome self.now.keywords.dimension }
    {
        if self.is_short() {
            return Some(Rule::RowCount);
        }
        if self.is_repeated(section) {
            return Some(Rule::Repeated);
        }
        match self.keywords.section_lacks(section) {
            Some(rule) => Some(rule),
            None => self.unsupported_fault(key, section),
        }
    }

    /// Keeps no rows yet of a section.
    fn add_section(&mut self, alloc: Global, section: Section) -> Result<(), AllocError>
        requires { IsSome self.old.keywords.dimension }
        ensures same { (self.new.mode ≡ self.old.mode) × (self.new.keywords ≡ self.old.keywords) }
        ensures added { OnOk result ((s : Section) → get same_section self.new.sections s
            ≡ opened_rows (Some section) (unwrap_or self.old.keywords.dimension 0) s (get same_section self.old.sections s)) }
    {
        let rows = Rows::new(alloc, section, self.keywords.nodes())?;
        put_rows(&mut self.sections, section, rows)
    }

    /// Keeps no rows yet of a section, where it is a known one.
    fn add_known(&mut self, alloc: Global, section: Option<Section>) -> Result<(), AllocError>
        requires { IsSome section → IsSome self.old.keywords.dimension }
        ensures same { (self.new.mode ≡ self.old.mode) × (self.new.keywords ≡ self.old.keywords) }
        ensures added { OnOk result ((s : Section) → get same_section self.new.sections s
            ≡ opened_rows section (unwrap_or self.old.keywords.dimension 0) s (get same_section self.old.sections s)) }
    {
        match section {
            None => Ok(()),
            Some(section) => self.add_section(alloc, section),
        }
    }

    /// Opens a section.
    fn open(
        &mut self,
        alloc: Global,
        key: &[u8],
        section: Option<Section>,
    ) -> Result<(), AllocError>
        requires same { section ≡ section_of key.now }
        requires dimension { IsSome section → IsSome self.old.keywords.dimension }
        ensures { OnOk result (OfText self.old (λ before. repeats_section section before ≡ false → Stands self.old.mode (section_line key.now ∷ before) self.new)) }
    {
        self.add_known(alloc, section)?;
        self.position = self.keywords.opened(section);
        Ok(())
    }

    /// The first fault of a section's line, which ends the section that is open and opens its own.
    pub(super) fn read_section(
        &mut self,
        alloc: Global,
        key: &[u8],
    ) -> Result<Option<Rule>, AllocError>
        ensures { IfOk result (λ fault. OfText self.old (Judges self.old (section_line key.now) fault self.new)) }
    {
        let section = Section::of_key(key);
        match self.section_fault(key, section) {
            Some(rule) => Ok(Some(rule)),
            None => {
                self.open(alloc, key, section)?;
                Ok(None)
            }
        }
    }
}
