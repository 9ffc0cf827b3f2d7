//! Faulty texts, each with the line and the rule of its refusal.
use problem_data::Problem;
use vrp_num::Rounding;
use vrplib_read::{Key, ReadFault, Refusal, Rule, read_instance};

/// Faulty texts, each with the line and the rule of its refusal.
const FAULTY: [(&str, u64, Rule); 20] = [
    ("DIMENSION : 3\nDIMENSION : 3\n", 2, Rule::Repeated),
    ("7\n", 1, Rule::NoKeyword),
    ("DISTANCE : 100\n", 1, Rule::Unsupported),
    ("VEHICLES_DEPOT_SECTION\n", 1, Rule::Unsupported),
    ("DEMAND_SECTION\n", 1, Rule::Missing(Key::Dimension)),
    (
        "DIMENSION : 2\nTIME_WINDOW_SECTION\n1 0 10\n2 9 8\n",
        4,
        Rule::EmptyWindow,
    ),
    ("NAME : a\nCOMMENT : \0\n", 2, Rule::NotText),
    ("DIMENSION : 2 3\n", 1, Rule::BadNumber),
    ("DIMENSION : 1\n", 1, Rule::Limit),
    ("DIMENSION : 1e1000000\n", 1, Rule::Limit),
    ("DIMENSION : 1e-1000000\n", 1, Rule::BadNumber),
    ("DIMENSION : 2\nDEPOT_SECTION\n-1 1\n", 3, Rule::RowCount),
    (
        "DIMENSION : 2\nNODE_COORD_SECTION\n1 0\n",
        3,
        Rule::RowCount,
    ),
    (
        "DIMENSION : 2\nNODE_COORD_SECTION\n1 0 0\nEOF\n",
        4,
        Rule::RowCount,
    ),
    ("DIMENSION : 2\nDEMAND_SECTION\n3 1\n", 3, Rule::BadNode),
    (
        "DIMENSION : 2\nPRIZE_SECTION\n1 0\n2 -1\n",
        4,
        Rule::BadNumber,
    ),
    (
        "DIMENSION : 2\nEDGE_WEIGHT_TYPE : EXPLICIT\nEDGE_WEIGHT_FORMAT : FULL_MATRIX\nEDGE_WEIGHT_SECTION\n0 1 1\n0 5\n",
        6,
        Rule::RowCount,
    ),
    (
        "DIMENSION : 2\nEDGE_WEIGHT_TYPE : EXPLICIT\nEDGE_WEIGHT_FORMAT : FULL_MATRIX\nEDGE_WEIGHT_SECTION\n0 1 1\n",
        6,
        Rule::RowCount,
    ),
    (
        "NAME : three\nDIMENSION : 4\nEDGE_WEIGHT_TYPE : EUC_2D\nCAPACITY : 10\nNODE_COORD_SECTION\n1 0 0\n2 3 4\n3 6 8\n4 0 2\nDEMAND_SECTION\n1 4\n2 1\n3 1\n4 1\nDEPOT_SECTION\n1\n-1\nEOF\n",
        0,
        Rule::BadDepot,
    ),
    ("EOF\n", 0, Rule::Missing(Key::Dimension)),
];

/// The refusal of a text, where it is refused.
pub(crate) fn refusal_of(outcome: Result<Problem, ReadFault>) -> Option<Refusal> {
    match outcome {
        Err(ReadFault::Refused(refusal)) => Some(refusal),
        _ => None,
    }
}

#[test]
fn faulty_texts_are_refused(rt: HostRuntime) {
    for (text, line, rule) in FAULTY.iter() {
        let outcome = read_instance(rt.alloc(), text.as_bytes(), Rounding::Round);
        let refusal = Refusal {
            line: *line,
            rule: *rule,
        };
        assert_eq!(rt; refusal_of(outcome), Some(refusal), "{text}");
    }
}
