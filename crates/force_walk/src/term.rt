//! The exact term of one mass on one body, fast: floats guess, and whole numbers test the guesses.

ghost use Rattle.std.specs.Prelude.{◌≡◌, ◌+◌, ◌-◌, ◌*◌, ◌/◌, ◌%◌, ◌^◌, ◌<◌, ◌≤◌, ℕ, pos, neg_ℤ, ◌<ℤ◌, ◌≤ℤ◌, IfSome, IsTrue};
ghost use Rattle.std.specs.Int.{abs_diff};
ghost use Rattle.octant_code.specs.Space.{squared_distance};
ghost use Rattle.octant_code.specs.Numbers.{root};
ghost use Rattle.bh_model.specs.Pulls.{IsSmall, IsWithin, component, term};
ghost use Rattle.force_walk.specs.Short.{IsRate, pull_of};

use crate::short_pull::ShortPull;
use bh_model::{Law, Pull, plain_term};
use octant_code::Point;

/// The term of a mass at a point on a body at another, whose squared distance is `d2`, exactly as
/// `plain_term` has it. The mass is below 2^40.
///
/// Floats guess the root and one rate for all three axes, and whole numbers of 64 bits test both. Where a
/// test fails, as where a coordinate may come to 2^31 or more, or where `d2` and the softening come to 2^42
/// or more, the plain steps stand in.
#[inline]
pub fn term_at(law: &Law, mass: u64, from: Point, to: Point, d2: u64) -> Pull
    requires light { mass < 2 ^ 40 }
    requires distance { d2 ≡ squared_distance from to }
    requires apart { 0 < d2 + law.now.eps2 }
    ensures { result ≡ term law.now mass from to }
{
    let _from = from.x;
    let _to = to.x;
    match short_term(law, mass, from, to, d2) {
        Some(term) => term.pull(),
        None => plain_term(law, mass, from, to),
    }
}

/// The same term where words of 64 bits hold its parts and the guesses are right.
#[inline]
pub fn short_term(law: &Law, mass: u64, from: Point, to: Point, d2: u64) -> Option<ShortPull>
    requires light { mass < 2 ^ 40 }
    requires distance { d2 ≡ squared_distance from to }
    requires near { d2 < 2 ^ 44 }
    requires apart { 0 < d2 + law.now.eps2 }
    ensures value { IfSome result (λ t. pull_of t ≡ term law.now mass from to) }
    ensures small { IfSome result (λ t. IsSmall (2 ^ 31) 1 (pull_of t)) }
{
    let r2 = softened(law, d2);
    let whole = whole_of(law, mass);
    if !is_below_words(whole, r2) {
        return None;
    }
    let guess = guess_of(law, mass, r2);
    let root = guess.root;
    let rate = guess.rate;
    if !is_root(r2, root) {
        return None;
    }
    if !is_rate(whole, divisor_of(r2, root), rate) {
        return None;
    }
    Some(ShortPull {
        ax: share_of(rate, from.x, to.x)?,
        ay: share_of(rate, from.y, to.y)?,
        az: share_of(rate, from.z, to.z)?,
        met: 1,
    })
}

/// A squared distance and the softening.
#[inline]
fn softened(law: &Law, d2: u64) -> u64
    requires near { d2 < 2 ^ 44 }
    ensures value { result ≡ d2 + law.now.eps2 }
    ensures fits { result < 2 ^ 45 }
{
    d2 + law.eps2
}

/// By what a way is multiplied in a term, in parts of 2^-32.
#[inline]
fn whole_of(law: &Law, mass: u64) -> u128
    requires light { mass < 2 ^ 40 }
    ensures value { result ≡ law.now.g * mass * 2 ^ 32 }
    ensures fits { result < 2 ^ 112 }
{
    u128::from(law.g * 0x100) * u128::from(mass * 0x100_0000)
}

/// Whether each coordinate of a term is below 2^31, since no way is longer than the root.
#[inline]
fn is_below_words(whole: u128, r2: u64) -> bool
    requires { whole < 2 ^ 112 }
    ensures { IsTrue result → whole < r2 * 2 ^ 63 }
{
    ((whole >> 63) as u64) < r2
}

// ---- guesses, of which nothing but their size has to be known

/// What is likely to be the root of `r2` and the rate of a term.
#[derive(Clone, Copy)]
struct Guess {
    root: u64,
    rate: u64,
}

/// Guesses by floats of the root of `r2`, and of the rate: `g * mass / (r2 * root)` in parts of 2^-32. The
/// root is rounded down: half of one is taken from the root of `r2 + 1/2`. Half a part is taken from the
/// rate, which is more than floats lose, and the float that holds it has two more bits; so it is right or
/// one part too low. A rate of 2^50 or more is guessed as 0.
#[inline]
fn guess_of(law: &Law, mass: u64, r2: u64) -> Guess
    requires mass_fits { mass < 2 ^ 40 }
    requires r2_fits { r2 < 2 ^ 45 }
    ensures root_fits { result.root < 2 ^ 21 }
    ensures rate_fits { result.rate < 2 ^ 62 }
{
    let bits = f64::from_bits(r2 + ONES);
    let near = (bits - HALF_BELOW).sqrt() + HALF_BELOW;
    let scale = float(mass) * (float(law.g) * 4294967296.0);
    let parts = scale / ((bits - ONES_FLOAT) * (near - ONES_FLOAT));
    let held = parts + (QUARTERS_FLOAT - 0.5);
    Guess {
        root: bits_below(near, 9007199254740992.0) % 0x20_0000,
        rate: bits_below(held, 2251799813685248.0).saturating_sub(QUARTERS) >> 2,
    }
}

/// The bits of a float that is below a limit, and else 0.
#[inline]
fn bits_below(x: f64, limit: f64) -> u64 {
    if x < limit { x.to_bits() } else { 0 }
}

/// The bits of the float 2^52. The lowest bits of a float from there to 2^53 count ones.
const ONES: u64 = 0x4330_0000_0000_0000;

/// The float 2^52.
const ONES_FLOAT: f64 = 4503599627370496.0;

/// The bits of the float 2^50. The lowest bits of a float from there to 2^51 count quarters.
const QUARTERS: u64 = 0x4310_0000_0000_0000;

/// The float 2^50.
const QUARTERS_FLOAT: f64 = 1125899906842624.0;

/// The float 2^52 - 1/2.
const HALF_BELOW: f64 = 4503599627370495.5;

/// The float that is a number below 2^52.
#[inline]
fn float(n: u64) -> f64
    requires { n < 2 ^ 52 }
{
    f64::from_bits(n + ONES) - ONES_FLOAT
}

// ---- the root, the divisor and the rate

/// Whether a number has a guess as its root.
#[inline]
fn is_root(n: u64, guess: u64) -> bool
    requires number_fits { n < 2 ^ 45 }
    requires guess_fits { guess < 2 ^ 21 }
    ensures { IsTrue result → (guess * guess ≤ n) × (n < (guess + 1) * (guess + 1)) }
{
    n.wrapping_sub(guess * guess) <= 2 * guess
}

/// What a term is divided by.
#[inline]
fn divisor_of(r2: u64, r: u64) -> u64
    requires positive { 0 < r2 }
    requires fits { r2 < 2 ^ 42 }
    requires root_value { r ≡ root r2 }
    requires root_fits { r < 2 ^ 21 }
    ensures value { result ≡ r2 * r }
    ensures positive { 0 < result }
    ensures fits { result < 2 ^ 63 }
{
    r2 * r
}

/// Whether the rate of a whole and a divisor is so much or less than two parts more.
#[inline]
fn is_rate(whole: u128, divisor: u64, rate: u64) -> bool
    requires whole_fits { whole < 2 ^ 112 }
    requires divisor_fits { divisor < 2 ^ 63 }
    requires rate_fits { rate < 2 ^ 62 }
    ensures { IsTrue result → (rate * divisor ≤ whole) × (whole < rate * divisor + 2 * divisor) }
{
    whole.wrapping_sub(u128::from(rate) * u128::from(divisor)) < u128::from(2 * divisor)
}

// ---- shares of a rate

/// The share of a rate along the way from a coordinate to another, where up to two parts more of the rate
/// lead to no other. That of a rate of 0 is 0 on the way down too, where no product without a rest is sure.
#[inline]
fn share_of(rate: u64, from: u32, to: u32) -> Option<i64>
    requires rate_fits { rate < 2 ^ 62 }
    requires from_fits { from < 2 ^ 21 }
    requires to_fits { to < 2 ^ 21 }
    requires small { rate * abs_diff from to < 2 ^ 63 }
    ensures value { (scale divisor : ℕ) → IsRate scale divisor rate → IfSome result (λ s. s ≡ component scale from to divisor) }
    ensures small { IfSome result (λ s. IsWithin (2 ^ 31) s) }
{
    if rate == 0 {
        return Some(0);
    }
    let gap = i64::from(to) - i64::from(from);
    let part = rate as i64 * gap;
    let size = u64::from(from.abs_diff(to));
    let whole = rate * size;
    if is_sure(part, gap, size, whole) {
        Some(share(part, gap, size, whole))
    } else {
        None
    }
}

/// Whether up to two parts more of a rate lead to no other share of it: the product of a rate and a gap,
/// whose sizes are those of a whole and a size.
#[inline]
fn is_sure(part: i64, gap: i64, size: u64, whole: u64) -> bool
    requires size { size < 2 ^ 21 }
    requires whole { whole < 2 ^ 63 }
    requires up { pos 0 ≤ℤ gap → (gap ≡ pos size) × (part ≡ pos whole) }
    requires down { gap <ℤ pos 0 → (gap ≡ neg_ℤ (pos size)) × (part ≡ neg_ℤ (pos whole)) }
    ensures sure { IsTrue result → whole % 2 ^ 32 + 2 * size ≤ 2 ^ 32 }
    ensures down { IsTrue result → gap <ℤ pos 0 → 0 < whole % 2 ^ 32 }
{
    let _whole = whole;
    let _size = size;
    (part.rem_euclid(0x1_0000_0000) + gap + gap).cast_unsigned() < 0x1_0000_0000
}

/// The share of such a product.
#[inline]
fn share(part: i64, gap: i64, size: u64, whole: u64) -> i64
    requires size { size < 2 ^ 21 }
    requires whole { whole < 2 ^ 63 }
    requires up { pos 0 ≤ℤ gap → (gap ≡ pos size) × (part ≡ pos whole) }
    requires down { gap <ℤ pos 0 → (gap ≡ neg_ℤ (pos size)) × (part ≡ neg_ℤ (pos whole)) × (0 < whole % 2 ^ 32) }
    ensures up { pos 0 ≤ℤ gap → result ≡ pos (whole / 2 ^ 32) }
    ensures down { gap <ℤ pos 0 → result ≡ neg_ℤ (pos (whole / 2 ^ 32)) }
{
    let _whole = whole;
    let _size = size;
    (part >> 32) - (gap >> 63)
}
