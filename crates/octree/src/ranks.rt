//! The order in which the bodies of a list are inserted.

ghost use Rattle.std.specs.Prelude.{◌≡◌, ◌<◌, ◌%◌, IfOk, length, map};
ghost use Rattle.octree.specs.Ranks.{HasEachOnce, body_of_rank};
ghost use Rattle.octant_code.specs.declared.limits.TheConstants.{MOST_BODIES};

use octant_code::{MOST_BODIES, OutOfMemory, Point, Points};
use std::alloc::Global;

/// How many numbers of bodies there are.
const BODIES: u64 = MOST_BODIES as u64;

/// The bits of a coordinate, each two places apart from the next.
#[inline]
fn spread(coordinate: u32) -> u64 {
    let bits = u64::from(coordinate);
    let bits = (bits | bits << 32) & 0x001f_0000_0000_ffff;
    let bits = (bits | bits << 16) & 0x001f_0000_ff00_00ff;
    let bits = (bits | bits << 8) & 0x100f_00f0_0f00_f00f;
    let bits = (bits | bits << 4) & 0x10c3_0c30_c30c_30c3;
    (bits | bits << 2) & 0x1249_2492_4924_9249
}

/// The bits of a point's coordinates in turn, the greatest first: its Morton key without the 1 in front.
#[inline]
fn interleaved(p: Point) -> u64 {
    spread(p.x) << 2 | spread(p.y) << 1 | spread(p.z)
}

/// Where a body comes in the order of insertion, and its number: the upper 47 bits of its point's
/// Morton key, and the number in the 16 lowest. Nothing but time depends on the upper ones.
#[inline]
pub fn rank_of(p: Point, n: u32) -> u64
    requires { n < MOST_BODIES }
    ensures { body_of_rank result ≡ n }
{
    let key = interleaved(p);
    key / BODIES * BODIES + u64::from(n)
}

/// The body of a rank.
#[inline]
pub fn body_of(rank: u64) -> u32
    ensures { result ≡ body_of_rank rank }
{
    (rank % BODIES) as u32
}

/// The ranks of all points, least first. So the bodies of a cube come together, as far as 15 levels
/// down, and the cells that they are given lie near each other.
pub fn ranks_of(alloc: Global, points: &Points) -> Result<Vec<u64>, OutOfMemory>
    ensures { IfOk result (λ v. HasEachOnce (length points.now) (map body_of_rank v.items)) }
{
    let count = points.len();
    let mut ranks = Vec::with_capacity(alloc, count as usize)?;
    for n in 0..count {
        match ranks.push(rank_of(points.at(n), n)) {
            Ok(()) => {}
            Err(_) => return Err(OutOfMemory),
        }
    }
    ranks.sort_unstable();
    Ok(ranks)
}
