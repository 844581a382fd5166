//! The plain slow program for blocks.

ghost use Rattle.std.specs.Prelude.{◌≡◌, ◌-◌, ◌<◌, ◌≤◌, All, IfOk, length};
ghost use Rattle.octant_code.specs.declared.limits.TheConstants.{LEVELS};
ghost use Rattle.octant_code.specs.Points.{site_at};
ghost use Rattle.bh_model.specs.Blocks.{blocks, blocks_from};

use crate::trees::bodies_in_octant;
use octant_code::{LEVELS, OutOfMemory, Points};
use std::alloc::Global;

/// The blocks of the bodies against others: 0 where there is no body, 1 where there are no others,
/// and else the sum over the eight octants.
pub fn plain_blocks(
    alloc: Global,
    points: &Points,
    bodies: &[u32],
    others: &[u32],
) -> Result<u64, OutOfMemory>
    requires within { All (λ n. n < length points.now) bodies.now }
    requires others_within { All (λ n. n < length points.now) others.now }
    ensures { IfOk result (λ b. b ≡ blocks (site_at points.now) bodies.now others.now) }
{
    blocks_of_part(alloc, points, bodies, others, 0)
}

/// The blocks of the bodies of one cube of a level.
fn blocks_of_part(
    alloc: Global,
    points: &Points,
    bodies: &[u32],
    others: &[u32],
    level: u32,
) -> Result<u64, OutOfMemory>
    requires within { All (λ n. n < length points.now) bodies.now }
    requires others_within { All (λ n. n < length points.now) others.now }
    requires shallow { level ≤ LEVELS }
    ensures { IfOk result (λ b. b ≡ blocks_from (site_at points.now) (LEVELS - level) level bodies.now others.now) }
{
    let _count = bodies.len();
    if bodies.is_empty() {
        return Ok(0);
    }
    if others.is_empty() {
        return Ok(1);
    }
    if level == LEVELS {
        return Ok(0);
    }
    let mut sum: u64 = 0;
    for k in 0..8 {
        let part = bodies_in_octant(alloc, points, bodies, level, k)?;
        let rest = bodies_in_octant(alloc, points, others, level, k)?;
        sum += blocks_of_part(alloc, points, &part, &rest, level + 1)?;
    }
    Ok(sum)
}
