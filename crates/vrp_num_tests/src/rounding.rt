//! Tests of rounded distances and numbers.
ghost use Rattle.std.specs.Prelude.{◌^◌, ◌≤◌, nat_abs};

use vrp_num::{Decimal, Rounding, euclid, round};

const LIMIT: u64 = 1_000_000_000_000;

fn distances(a: (i64, i64), b: (i64, i64)) -> [u64; 4]
    requires a_x { nat_abs a.0 ≤ 10 ^ 12 }
    requires a_y { nat_abs a.1 ≤ 10 ^ 12 }
    requires b_x { nat_abs b.0 ≤ 10 ^ 12 }
    requires b_y { nat_abs b.1 ≤ 10 ^ 12 }
{
    [
        euclid(Rounding::Round, a, b),
        euclid(Rounding::Trunc, a, b),
        euclid(Rounding::Dimacs, a, b),
        euclid(Rounding::Exact, a, b),
    ]
}

#[test]
fn distances_in_each_mode(rt: HostRuntime) {
    for (a, b, expected) in [
        (
            (0_i64, 0_i64),
            (1_000_000_i64, 1_000_000_i64),
            [1, 1, 14, 1414],
        ),
        ((0, 0), (1_500_000, 2_000_000), [3, 2, 25, 2500]),
        ((5, 7), (5, 7), [0, 0, 0, 0]),
        ((0, 0), (499_999, 0), [0, 0, 4, 500]),
        ((0, 0), (500_000, 0), [1, 0, 5, 500]),
        ((0, 0), (499, 0), [0, 0, 0, 0]),
        ((0, 0), (500, 0), [0, 0, 0, 1]),
        ((-3_000_000, 4_000_000), (0, 0), [5, 5, 50, 5000]),
        (
            (-1_000_000_000_000, -1_000_000_000_000),
            (1_000_000_000_000, 1_000_000_000_000),
            [2_828_427, 2_828_427, 28_284_271, 2_828_427_125],
        ),
    ] {
        assert!(rt; a.0.unsigned_abs() <= LIMIT);
        assert!(rt; a.1.unsigned_abs() <= LIMIT);
        assert!(rt; b.0.unsigned_abs() <= LIMIT);
        assert!(rt; b.1.unsigned_abs() <= LIMIT);
        assert_eq!(rt; distances(a, b), expected, "from {a:?} to {b:?}");
    }
}

fn rounded(micro: u32) -> [u64; 4] {
    let value = Decimal {
        micro: i64::from(micro),
    };
    [
        round(Rounding::Round, value),
        round(Rounding::Trunc, value),
        round(Rounding::Dimacs, value),
        round(Rounding::Exact, value),
    ]
}

#[test]
fn numbers_in_each_mode(rt: HostRuntime) {
    for (micro, expected) in [
        (0, [0, 0, 0, 0]),
        (499_999, [0, 0, 4, 500]),
        (500_000, [1, 0, 5, 500]),
        (1_999_499, [2, 1, 19, 1999]),
        (1_999_500, [2, 1, 19, 2000]),
    ] {
        assert_eq!(rt; rounded(micro), expected, "{micro} millionths");
    }
}
