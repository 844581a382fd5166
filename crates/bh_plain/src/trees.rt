//! A plain slow program for the text and the order of canonical octrees. It splits lists as the
//! definition does, and the tests of the other programs compare with it.

ghost use Rattle.std.specs.Prelude.{◌≡◌, ◌++◌, ◌-◌, ◌<◌, ◌≤◌, All, IfOk, OnOk, length};
ghost use Rattle.octant_code.specs.declared.limits.TheConstants.{LEVELS};
ghost use Rattle.octant_code.specs.Points.{site_at};
ghost use Rattle.bh_model.specs.Trees.{in_octant, octree_from, octree, order, text};

use itoa::Buffer;
use octant_code::{LEVELS, OutOfMemory, Points, octant};
use std::alloc::Global;

/// The text of the canonical octree of the bodies: `.` for none, `b` and the number for one, and
/// the texts of the eight octants between brackets for more.
pub fn plain_text(alloc: Global, points: &Points, bodies: &[u32]) -> Result<Vec<u8>, OutOfMemory>
    requires { All (λ n. n < length points.now) bodies.now }
    ensures { IfOk result (λ bytes. bytes.items ≡ text (octree (site_at points.now) bodies.now)) }
{
    let mut out: Vec<u8> = Vec::new(alloc);
    push_text(alloc, points, bodies, 0, &mut out)?;
    Ok(out)
}

/// The bodies in the order of their canonical octree: the orders of the eight octants one after
/// another.
pub fn plain_order(alloc: Global, points: &Points, bodies: &[u32]) -> Result<Vec<u32>, OutOfMemory>
    requires { All (λ n. n < length points.now) bodies.now }
    ensures { IfOk result (λ found. found.items ≡ order (octree (site_at points.now) bodies.now)) }
{
    let mut out: Vec<u32> = Vec::new(alloc);
    push_order(alloc, points, bodies, 0, &mut out)?;
    Ok(out)
}

/// Appends the text of the octree of the bodies of one cube of a level.
fn push_text(
    alloc: Global,
    points: &Points,
    bodies: &[u32],
    level: u32,
    out: &mut Vec<u8>,
) -> Result<(), OutOfMemory>
    requires within { All (λ n. n < length points.now) bodies.now }
    requires shallow { level ≤ LEVELS }
    ensures { OnOk result (out.new.items ≡ out.old.items ++ text (octree_from (site_at points.now) (LEVELS - level) level bodies.now)) }
{
    if bodies.len() == 1 {
        let mut number = Buffer::new();
        out.push(b'b')?;
        out.extend_from_slice(number.format(bodies[0]).as_bytes())?;
        return Ok(());
    }
    if bodies.is_empty() || level == LEVELS {
        out.push(b'.')?;
        return Ok(());
    }
    out.push(b'(')?;
    for k in 0..8 {
        let part = bodies_in_octant(alloc, points, bodies, level, k)?;
        push_text(alloc, points, &part, level + 1, out)?;
    }
    out.push(b')')?;
    Ok(())
}

/// Appends the order of the octree of the bodies of one cube of a level.
fn push_order(
    alloc: Global,
    points: &Points,
    bodies: &[u32],
    level: u32,
    out: &mut Vec<u32>,
) -> Result<(), OutOfMemory>
    requires within { All (λ n. n < length points.now) bodies.now }
    requires shallow { level ≤ LEVELS }
    ensures { OnOk result (out.new.items ≡ out.old.items ++ order (octree_from (site_at points.now) (LEVELS - level) level bodies.now)) }
{
    if bodies.len() == 1 {
        out.push(bodies[0])?;
        return Ok(());
    }
    if bodies.is_empty() || level == LEVELS {
        return Ok(());
    }
    for k in 0..8 {
        let part = bodies_in_octant(alloc, points, bodies, level, k)?;
        push_order(alloc, points, &part, level + 1, out)?;
    }
    Ok(())
}

/// The bodies whose point has an octant at a level, in the order of the list.
pub(crate) fn bodies_in_octant(
    alloc: Global,
    points: &Points,
    bodies: &[u32],
    level: u32,
    k: u32,
) -> Result<Vec<u32>, OutOfMemory>
    requires within { All (λ n. n < length points.now) bodies.now }
    requires shallow { level < LEVELS }
    ensures { IfOk result (λ part. part.items ≡ in_octant (site_at points.now) level k bodies.now) }
{
    let mut part: Vec<u32> = Vec::new(alloc);
    for n in bodies {
        if octant(points.at(*n), level) == k {
            part.push(*n)?;
        }
    }
    Ok(part)
}
