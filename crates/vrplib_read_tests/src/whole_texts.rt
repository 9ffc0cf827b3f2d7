//! Texts as published files have them.
use crate::faulty_texts::refusal_of;
use std::alloc::Global;
use std::test::Fail;
use vrp_num::Rounding;
use vrplib_read::{Refusal, Rule, read_instance};

/// A text with tabs and a comment, as published files have, up to its last section.
const TINY: &str =
    "NAME : \ttiny\nCOMMENT : \t\"by: nobody, see: none\"\nTYPE : \tCVRP\nDIMENSION : \t3\nEDGE_WEIGHT_TYPE : \tEUC_2D\nCAPACITY : \t10\nNODE_COORD_SECTION\n1\t0\t0\n2\t3\t4\n3\t0\t5\nDEMAND_SECTION\n1\t0\n2\t7\n3\t8\nDEPOT_SECTION\n\t1\n\t-1\n";

/// How many bytes of the text are read as a problem, where fewer aren't.
fn shortest_accepted(alloc: Global, text: &[u8]) -> Option<usize> {
    for length in 0..=text.len() {
        if read_instance(alloc, &text[..length], Rounding::Round).is_ok() {
            return Some(length);
        }
    }
    None
}

#[test]
fn a_text_may_end_behind_its_coordinates(rt: HostRuntime) {
    let coordinates = TINY.split_once("\nDEMAND_SECTION");
    let length = coordinates.map(|(text, _)| text.len());
    assert_eq!(rt; shortest_accepted(rt.alloc(), TINY.as_bytes()), length);
}

#[test]
fn a_depot_in_a_group_is_refused(rt: HostRuntime) -> Result<(), Fail> {
    let mut text = String::from_str(rt.alloc(), TINY)?;
    text.push_str("MUTUALLY_EXCLUSIVE_GROUP_SECTION\n1 1\nEOF\n")?;
    let outcome = read_instance(rt.alloc(), text.as_bytes(), Rounding::Round);
    let refusal = Refusal {
        line: 0,
        rule: Rule::BadGroup,
    };
    assert_eq!(rt; refusal_of(outcome), Some(refusal));
    Ok(())
}
