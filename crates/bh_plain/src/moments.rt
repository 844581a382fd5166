//! The plain slow program for moments.

ghost use Rattle.std.specs.Prelude.{◌≡◌, ◌+◌, ◌-◌, ◌^◌, ◌<◌, ◌≤◌, All, IfOk, length, slice_index, sum_by};
ghost use Rattle.octant_code.specs.declared.limits.TheConstants.{LEVELS};
ghost use Rattle.octant_code.specs.Points.{site_at};
ghost use Rattle.bh_model.specs.Moments.{FitsWords, matter_by, moment, moment_of_body};
ghost use Rattle.bh_model.specs.Trees.{octree, octree_from};

use crate::trees::bodies_in_octant;
use bh_model::Moment;
use octant_code::{LEVELS, MOST_BODIES, OutOfMemory, Points};
use std::alloc::Global;

/// The moment of the bodies: the sums of their masses, of mass times each coordinate, of 1 and of
/// their costs, over the canonical octree.
///
/// Each body of the list has its point, its mass and its cost. The masses sum to less than 2^40, and
/// the costs to less than 2^64.
pub fn plain_moment(
    alloc: Global,
    points: &Points,
    masses: &[u32],
    costs: &[u32],
    bodies: &[u32],
) -> Result<Moment, OutOfMemory>
    requires within { All (λ n. n < length points.now) bodies.now }
    requires weighed { All (λ n. n < length masses.now) bodies.now }
    requires costed { All (λ n. n < length costs.now) bodies.now }
    requires light { sum_by (λ n. slice_index masses.now n) bodies.now < 2 ^ 40 }
    requires few { length bodies.now ≤ MOST_BODIES }
    requires cheap { sum_by (λ n. slice_index costs.now n) bodies.now < 2 ^ 64 }
    ensures { IfOk result (λ m. m ≡ moment (matter_by masses.now points.now) (λ n. slice_index costs.now n) (octree (site_at points.now) bodies.now)) }
{
    let _rule = points.len();
    moment_of_part(alloc, points, masses, costs, bodies, 0)
}

/// The moment of the octree of the bodies of one cube of a level.
pub(crate) fn moment_of_part(
    alloc: Global,
    points: &Points,
    masses: &[u32],
    costs: &[u32],
    bodies: &[u32],
    level: u32,
) -> Result<Moment, OutOfMemory>
    requires within { All (λ n. n < length points.now) bodies.now }
    requires weighed { All (λ n. n < length masses.now) bodies.now }
    requires costed { All (λ n. n < length costs.now) bodies.now }
    requires shallow { level ≤ LEVELS }
    requires fits { FitsWords (moment (matter_by masses.now points.now) (λ n. slice_index costs.now n) (octree_from (site_at points.now) (LEVELS - level) level bodies.now)) }
    ensures { IfOk result (λ m. m ≡ moment (matter_by masses.now points.now) (λ n. slice_index costs.now n) (octree_from (site_at points.now) (LEVELS - level) level bodies.now)) }
{
    if bodies.len() == 1 {
        return Ok(moment_of_body(points, masses, costs, bodies[0]));
    }
    let mut sum = Moment::none();
    if bodies.is_empty() || level == LEVELS {
        return Ok(sum);
    }
    for k in 0..8 {
        let part = bodies_in_octant(alloc, points, bodies, level, k)?;
        let more = moment_of_part(alloc, points, masses, costs, &part, level + 1)?;
        sum = sum.plus(more);
    }
    Ok(sum)
}

/// The moment of one body.
fn moment_of_body(points: &Points, masses: &[u32], costs: &[u32], n: u32) -> Moment
    requires within { n < length points.now }
    requires weighed { n < length masses.now }
    requires costed { n < length costs.now }
    ensures { result ≡ moment_of_body (slice_index masses.now n) (site_at points.now n) (slice_index costs.now n) }
{
    Moment::of_body(masses[n as usize], points.at(n), costs[n as usize])
}
