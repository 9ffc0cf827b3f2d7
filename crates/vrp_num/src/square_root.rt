//! Whole roots.
ghost use Rattle.std.specs.Prelude.{◌^◌, ◌<◌, ◌↔◌, IsTrue};
ghost use Rattle.vrp_num.specs.Root.{IsRoot};

use std::num::{nearest_u64_to_f64, saturating_f64_to_u64};

/// 2^64.
const WORD: f64 = 18_446_744_073_709_551_616.0;

/// The greatest number whose square is at most `n`, for `n` below 2^127.
///
/// A float's root is mostly the answer or one above it. It is taken only where a test of its square says so.
pub fn root(n: u128) -> u64
    requires { n < 2 ^ 127 }
    ensures greatest { IsRoot n result }
{
    let estimate = if n <= u64::MAX as u128 {
        word_estimate(n as u64)
    } else {
        wide_estimate(n)
    };
    if is_root(n, estimate) {
        estimate
    } else if estimate > 0 && is_root(n, estimate - 1) {
        estimate - 1
    } else {
        n.isqrt() as u64
    }
}

/// Whether `m` is the greatest number whose square is at most `n`.
fn is_root(n: u128, m: u64) -> bool
    ensures { IsTrue result ↔ IsRoot n m }
{
    let square = m as u128 * m as u128;
    square <= n && n - square <= 2 * m as u128
}

/// A number that is mostly the root of `n` or the one above, by the root of a float.
fn word_estimate(n: u64) -> u64 {
    saturating_f64_to_u64(nearest_u64_to_f64(n).sqrt())
}

/// A number that is mostly the root of `n` or the one above, by a step of Newton's method from the root of a float.
fn wide_estimate(n: u128) -> u64
    requires { n < 2 ^ 127 }
{
    let upper = nearest_u64_to_f64((n >> 64) as u64);
    let lower = nearest_u64_to_f64((n & u64::MAX as u128) as u64);
    let first = saturating_f64_to_u64((upper * WORD + lower).sqrt()).max(1) as u128;
    let second = (first + n / first) / 2;
    second.min(u64::MAX as u128) as u64
}
