//! The term of one mass on one body, in plain steps.

ghost use Rattle.std.specs.Prelude.{◌≡◌, ◌+◌, ◌*◌, ◌^◌, ◌<◌};
ghost use Rattle.octant_code.specs.Space.{squared_distance};
ghost use Rattle.bh_model.specs.Pulls.{component, term};

use crate::pull::{Law, Pull};
use octant_code::{Point, short_isqrt, squared_distance, trunc_div};

/// The term of a mass at a point on a body at another: `g * mass * d / (r2 * r)` along each axis,
/// rounded towards zero, with `d` the way to the mass, `r2` the squared distance and the softening,
/// and `r` the root of `r2`, rounded down. The mass is below 2^40.
///
/// These are the plain steps, with which faster ones are compared.
pub fn plain_term(law: &Law, mass: u64, from: Point, to: Point) -> Pull
    requires light { mass < 2 ^ 40 }
    requires apart { 0 < squared_distance from to + law.now.eps2 }
    ensures { result ≡ term law.now mass from to }
{
    let r2 = squared_distance(from, to) + law.eps2;
    let divisor = u128::from(r2) * u128::from(short_isqrt(r2));
    let scale = u128::from(law.g) * u128::from(mass);
    Pull {
        ax: plain_component(scale, from.x, to.x, divisor),
        ay: plain_component(scale, from.y, to.y, divisor),
        az: plain_component(scale, from.z, to.z, divisor),
        met: 1,
    }
}

/// One coordinate of a term: `scale * (to - from) / divisor`, rounded towards zero. The scale is below
/// 2^80, and the divisor is at least 1 and below 2^127.
pub fn plain_component(scale: u128, from: u32, to: u32, divisor: u128) -> i128
    requires scale_fits { scale < 2 ^ 80 }
    requires positive { 0 < divisor }
    requires small { divisor < 2 ^ 127 }
    ensures { result ≡ component scale from to divisor }
{
    trunc_div(scale as i128 * (i128::from(to) - i128::from(from)), divisor)
}
