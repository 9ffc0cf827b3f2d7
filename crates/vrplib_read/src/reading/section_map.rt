//! The sections that are kept, by name.
ghost use Rattle.std.specs.Prelude.{◌≡◌, ◌≤◌, ◌*◌, ◌⊎◌, IfOk, OnOk, Some, is_some, option_map, true, if◌then◌else◌};
ghost use Rattle.std.specs.Option.{ForSome};
ghost use Rattle.indexmap.specs.IndexMap.{get};
ghost use Rattle.vrplib_model.specs.Lines.{tokens};
ghost use Rattle.vrplib_model.specs.RowFaults.{fault_of_row};
ghost use Rattle.vrplib_model.specs.declared.section.Section.{Section};
ghost use Rattle.vrplib_model.specs.Sections.{same_section};
ghost use Rattle.vrplib_read.specs.inside.Steps.{kind_of, with_row};

use indexmap::IndexMap;
use std::alloc::AllocError;
use vrp_num::Rounding;
use vrplib_model::{Rule, Section};
use vrplib_rows::Rows;

/// Puts the rows of a section beside those of the others.
pub(super) fn put_rows(
    sections: &mut IndexMap<Section, Rows>,
    section: Section,
    rows: Rows,
) -> Result<(), AllocError>
    ensures put { OnOk result ((s : Section) → get same_section sections.new s ≡ (if same_section section s then Some rows else get same_section sections.old s)) }
    ensures either { (s : Section) → (get same_section sections.new s ≡ get same_section sections.old s) ⊎ ((section ≡ s) × (get same_section sections.new s ≡ Some rows)) }
{
    sections.insert(section, rows)?;
    Ok(())
}

/// Adds a faultless row to a section, or names the first check that it fails.
pub(super) fn add_row(
    sections: &mut IndexMap<Section, Rows>,
    section: Section,
    mode: Rounding,
    weights: u64,
    line: &[u8],
) -> Result<Option<Rule>, AllocError>
    requires { is_some (get same_section sections.old section) ≡ true }
    ensures fault { IfOk result (λ fault. ForSome (get same_section sections.old section)
        (λ l. fault ≡ fault_of_row mode l.section (tokens line.now) l.nodes weights l.rows)) }
    ensures added { result ≡ Ok None → (s : Section) → get same_section sections.new s ≡ (if same_section section s
        then option_map (with_row mode (tokens line.now)) (get same_section sections.old section) else get same_section sections.old s) }
    ensures kept { (s : Section) → option_map kind_of (get same_section sections.new s) ≡ option_map kind_of (get same_section sections.old s) }
{
    match sections.get_mut(&section) {
        Some(rows) => rows.read_row(mode, weights, line),
        None => unreachable!(),
    }
}
