//! The plain slow program for pulls.

ghost use Rattle.std.specs.Prelude.{◌≡◌, ◌-◌, ◌^◌, ◌<◌, ◌≤◌, All, IfOk, length, slice_index, sum_by};
ghost use Rattle.octant_code.specs.declared.limits.TheConstants.{LEVELS};
ghost use Rattle.octant_code.specs.Points.{site_at};
ghost use Rattle.bh_model.specs.Bodies.{NoneTwice};
ghost use Rattle.bh_model.specs.Moments.{matter_by};
ghost use Rattle.bh_model.specs.Pulls.{is_far, is_whole, pull, pull_from};
ghost use Rattle.bh_model.specs.Trees.{Body, octree, octree_from};
ghost use Rattle.bh_plain.specs.Parts.{IsPart};

use crate::moments::moment_of_part;
use crate::trees::bodies_in_octant;
use bh_model::{Law, Pull, plain_term};
use octant_code::{LEVELS, OutOfMemory, Point, Points, key_at, squared_distance};
use std::alloc::Global;

/// The pull of the canonical octree of the bodies on body `n`, as the definition has it: nothing of
/// no body and of the body itself, the term of another body, the term of a cell's mass at its centre
/// where the cell is taken whole, and else the sum of the pulls of the eight octants.
///
/// The bodies are different ones, each has its point and its mass, and the masses sum to less than
/// 2^40. Body `n` has its point.
pub fn plain_pull(
    alloc: Global,
    points: &Points,
    masses: &[u32],
    law: &Law,
    n: u32,
    bodies: &[u32],
) -> Result<Pull, OutOfMemory>
    requires distinct { NoneTwice bodies.now }
    requires within { All (λ j. j < length points.now) bodies.now }
    requires weighed { All (λ j. j < length masses.now) bodies.now }
    requires light { sum_by (λ j. slice_index masses.now j) bodies.now < 2 ^ 40 }
    requires own { n < length points.now }
    ensures { IfOk result (λ p. p ≡ pull law.now (matter_by masses.now points.now) n (octree (site_at points.now) bodies.now)) }
{
    let _read = (points.len(), law.g);
    pull_of_part(alloc, points, masses, law, n, bodies, 0, 1)
}

/// The pull of the octree of the bodies of one cube, of a level and with a key.
fn pull_of_part(
    alloc: Global,
    points: &Points,
    masses: &[u32],
    law: &Law,
    n: u32,
    bodies: &[u32],
    level: u32,
    key: u64,
) -> Result<Pull, OutOfMemory>
    requires own { n < length points.now }
    requires shallow { level ≤ LEVELS }
    requires constant { law.now.g ≤ 2 ^ 40 }
    requires part { IsPart points.now masses.now level key bodies.now }
    ensures { IfOk result (λ p. p ≡ pull_from law.now (matter_by masses.now points.now) n (LEVELS - level) key (octree_from (site_at points.now) (LEVELS - level) level bodies.now)) }
{
    if bodies.len() == 1 {
        return Ok(pull_of_body(points, masses, law, n, bodies[0]));
    }
    let mut sum = Pull::none();
    if bodies.is_empty() || level == LEVELS {
        return Ok(sum);
    }
    let cell = moment_of_part(alloc, points, masses, masses, bodies, level)?;
    let from = points.at(n);
    let to = cell.centre();
    if is_whole(law, level, key, from, to) {
        return Ok(plain_term(law, cell.mass, from, to));
    }
    for k in 0..8 {
        let octant = bodies_in_octant(alloc, points, bodies, level, k)?;
        let below = 8 * key + u64::from(k);
        let more = pull_of_part(alloc, points, masses, law, n, &octant, level + 1, below)?;
        sum = sum.plus(more);
    }
    Ok(sum)
}

/// The pull of body `j` on body `n`.
fn pull_of_body(points: &Points, masses: &[u32], law: &Law, n: u32, j: u32) -> Pull
    requires own { n < length points.now }
    requires within { j < length points.now }
    requires weighed { j < length masses.now }
    ensures { result ≡ pull_from law.now (matter_by masses.now points.now) n 0 0 (Body j) }
{
    let _count = points.len();
    if j == n {
        return Pull::none();
    }
    let mass = u64::from(masses[j as usize]);
    let from = points.at(n);
    let to = points.at(j);
    plain_term(law, mass, from, to)
}

/// Whether the cell of a key of a level is taken whole by a body at a point: the point is outside the
/// cell's cube, and the cell's centre is far.
fn is_whole(law: &Law, level: u32, key: u64, from: Point, to: Point) -> bool
    requires { level ≤ LEVELS }
    ensures { result ≡ is_whole law.now (LEVELS - level) key from to }
{
    if key_at(from, level) == key {
        return false;
    }
    is_far(law, LEVELS - level, from, to)
}

/// Whether a centre is far from a point for a cube of side `2^down`.
fn is_far(law: &Law, down: u32, from: Point, to: Point) -> bool
    requires { down ≤ LEVELS }
    ensures { result ≡ is_far law.now down from to }
{
    let side = 1u128 << down;
    let num = u128::from(law.theta_num);
    let den = u128::from(law.theta_den);
    side * side * (den * den) < num * num * u128::from(squared_distance(from, to))
}
