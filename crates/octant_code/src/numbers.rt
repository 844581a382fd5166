//! Exact square roots and quotients of whole numbers.

ghost use Rattle.std.specs.Prelude.{◌≡◌, ◌+◌, ◌*◌, ◌^◌, ◌<◌, ◌≤◌};
ghost use Rattle.octant_code.specs.Numbers.{quotient, root};

use std::num::{nearest_u64_to_f64, saturating_f64_to_u64};

/// The greatest number whose square is at most `n`. It is exact for every `n`, and fast below 2^64.
pub fn isqrt(n: u128) -> u128
    ensures value { result ≡ root n }
    ensures low { result * result ≤ n }
    ensures high { n < (result + 1) * (result + 1) }
{
    if n <= 0xffff_ffff_ffff_ffff {
        u128::from(short_isqrt(n as u64))
    } else {
        n.isqrt()
    }
}

/// The same of a number below 2^64, in 64-bit arithmetic. A guess is tested, so that nothing has to
/// be known of it.
#[inline]
pub fn short_isqrt(n: u64) -> u64
    ensures value { result ≡ root n }
    ensures low { result * result ≤ n }
    ensures high { n < (result + 1) * (result + 1) }
{
    let r = root_guess(n);
    if r <= 0xffff_ffff && r * r <= n && n - r * r <= 2 * r {
        r
    } else {
        n.isqrt()
    }
}

/// A number that is likely to be the root: that of the nearest float, and one less where its square
/// is too great.
fn root_guess(n: u64) -> u64 {
    let r = saturating_f64_to_u64(nearest_u64_to_f64(n).sqrt()).min(0xffff_ffff);
    r.wrapping_sub(u64::from(r.wrapping_mul(r) > n))
}

/// The quotient of `n` by `d`, rounded towards zero. `d` is at least 1 and below 2^127. It is fast
/// where both numbers are below 2^64 in size.
pub fn trunc_div(n: i128, d: u128) -> i128
    requires positive { 0 < d }
    requires small { d < 2 ^ 127 }
    ensures { result ≡ quotient n d }
{
    let size = n.unsigned_abs();
    if size > 0xffff_ffff_ffff_ffff || d > 0xffff_ffff_ffff_ffff {
        return n / d as i128;
    }
    let parts = i128::from(size as u64 / d as u64);
    if n < 0 { -parts } else { parts }
}
