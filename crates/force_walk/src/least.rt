//! From which distance on a cell is far.

ghost use Rattle.std.specs.Prelude.{◌≤◌};
ghost use Rattle.octant_code.specs.declared.limits.TheConstants.{LEVELS};
ghost use Rattle.bh_model.specs.Pulls.{IsPullLaw};
ghost use Rattle.force_walk.specs.Least.{AreLeast, IsLeast};

use bh_model::Law;

/// How many sides cubes have: `2^0` to `2^21`.
pub const SIDES: usize = 22;

/// More than any squared distance.
const FARTHEST: u64 = 1 << 44;

/// The least squared distances at which cubes of the sides `2^0` to `2^21` are far.
pub fn least_distances(law: &Law) -> [u64; SIDES]
    ensures least { AreLeast law.now result }
    ensures rule { IsPullLaw law.now }
{
    let _g = law.g;
    let mut list = [0; SIDES];
    for down in 0..22u32 {
        list[down as usize] = least_distance(law, down);
    }
    list
}

/// The least squared distance at which a cube of side `2^down` is far, at most 2^44, which is more
/// than any.
fn least_distance(law: &Law, down: u32) -> u64
    requires { down ≤ LEVELS }
    ensures { IsLeast law.now down result }
{
    let num = u128::from(law.theta_num);
    let den = u128::from(law.theta_den);
    if num == 0 {
        return FARTHEST;
    }
    let near = (1u128 << (2 * down)) * (den * den) / (num * num);
    if near < u128::from(FARTHEST) {
        near as u64 + 1
    } else {
        FARTHEST
    }
}
