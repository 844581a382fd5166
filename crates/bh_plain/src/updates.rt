//! The plain slow program for the counts of an update.

ghost use Rattle.std.specs.Prelude.{◌≡◌, ◌++◌, ◌-◌, ◌*◌, ◌^◌, ◌<◌, ◌≤◌, All, IfOk, OnOk, length};
ghost use Rattle.std.specs.List.{list_any};
ghost use Rattle.octant_code.specs.declared.limits.TheConstants.{LEVELS, MOST_BODIES};
ghost use Rattle.octant_code.specs.Points.{site_at};
ghost use Rattle.bh_model.specs.Bodies.{without};
ghost use Rattle.bh_model.specs.Movers.{is_under, keeps_leaf, leaf_keys_from, remaining, update_counts};
ghost use Rattle.bh_model.specs.Trees.{cell_keys_from, octree, octree_from};

use crate::trees::bodies_in_octant;
use bh_model::UpdateCounts;
use octant_code::{LEVELS, OutOfMemory, Point, Points, key_at};
use std::alloc::Global;

/// The counts of an update of the octree of the bodies, from the octrees' cells, key by key.
pub fn plain_update_counts(
    alloc: Global,
    old: &Points,
    new: &Points,
    bodies: &[u32],
) -> Result<UpdateCounts, OutOfMemory>
    requires old_within { All (λ n. n < length old.now) bodies.now }
    requires new_within { All (λ n. n < length new.now) bodies.now }
    requires few { length bodies.now ≤ MOST_BODIES }
    ensures { IfOk result (λ c. c ≡ update_counts (site_at old.now) (site_at new.now) bodies.now) }
{
    let kept = plain_remaining(alloc, old, new, bodies)?;
    let before = cell_keys(alloc, old, bodies)?;
    let after = cell_keys(alloc, new, bodies)?;
    let stay = cell_keys(alloc, new, &kept)?;
    Ok(UpdateCounts {
        left: (bodies.len() - kept.len()) as u32,
        freed: count_without(&before, &stay),
        taken: count_without(&after, &stay),
    })
}

/// The bodies whose new points lie in the cubes of their leaves.
fn plain_remaining(
    alloc: Global,
    old: &Points,
    new: &Points,
    bodies: &[u32],
) -> Result<Vec<u32>, OutOfMemory>
    requires old_within { All (λ n. n < length old.now) bodies.now }
    requires new_within { All (λ n. n < length new.now) bodies.now }
    ensures { IfOk result (λ v. v.items ≡ remaining (site_at old.now) (site_at new.now) bodies.now) }
{
    let mut kept: Vec<u32> = Vec::new(alloc);
    for n in bodies {
        if keeps_its_leaf(alloc, old, new, bodies, *n)? {
            kept.push(*n)?;
        }
    }
    Ok(kept)
}

/// Whether the new point of a body lies in the cube of its leaf.
fn keeps_its_leaf(
    alloc: Global,
    old: &Points,
    new: &Points,
    bodies: &[u32],
    n: u32,
) -> Result<bool, OutOfMemory>
    requires within { All (λ n. n < length old.now) bodies.now }
    requires n_in { n < length new.now }
    ensures { IfOk result (λ keeps. keeps ≡ keeps_leaf (site_at old.now) (site_at new.now) bodies.now n) }
{
    let mut keys: Vec<u64> = Vec::new(alloc);
    push_leaf_keys(alloc, old, bodies, n, 0, 1, &mut keys)?;
    Ok(some_is_over(&keys, new.at(n)))
}

/// Whether a point lies in the cube of one of the keys.
fn some_is_over(keys: &[u64], p: Point) -> bool
    ensures { result ≡ list_any (λ key. is_under key p) keys.now }
{
    for key in keys {
        if is_over(*key, p) {
            return true;
        }
    }
    false
}

/// Whether a point lies in the cube of a key.
fn is_over(key: u64, p: Point) -> bool
    ensures { result ≡ is_under key p }
{
    for level in 0..LEVELS + 1 {
        if key == key_at(p, level) {
            return true;
        }
    }
    false
}

/// Appends the keys of the words that name a body, in the octree of the bodies of one cube of a level.
fn push_leaf_keys(
    alloc: Global,
    points: &Points,
    bodies: &[u32],
    n: u32,
    level: u32,
    key: u64,
    out: &mut Vec<u64>,
) -> Result<(), OutOfMemory>
    requires within { All (λ n. n < length points.now) bodies.now }
    requires shallow { level ≤ LEVELS }
    requires key_small { key < 2 * 8 ^ level }
    ensures { OnOk result (out.new.items ≡ out.old.items ++ leaf_keys_from n (octree_from (site_at points.now) (LEVELS - level) level bodies.now) key) }
{
    if bodies.len() == 1 {
        if bodies[0] == n {
            out.push(key)?;
        }
        return Ok(());
    }
    if bodies.is_empty() || level == LEVELS {
        return Ok(());
    }
    for k in 0..8u32 {
        let part = bodies_in_octant(alloc, points, bodies, level, k)?;
        let child = 8 * key + u64::from(k);
        push_leaf_keys(alloc, points, &part, n, level + 1, child, out)?;
    }
    Ok(())
}

/// The keys of the cells of the octree of the bodies.
fn cell_keys(alloc: Global, points: &Points, bodies: &[u32]) -> Result<Vec<u64>, OutOfMemory>
    requires within { All (λ n. n < length points.now) bodies.now }
    ensures { IfOk result (λ keys. keys.items ≡ cell_keys_from (octree (site_at points.now) bodies.now) 1) }
{
    let mut keys: Vec<u64> = Vec::new(alloc);
    push_cell_keys(alloc, points, bodies, 0, 1, &mut keys)?;
    Ok(keys)
}

/// Appends the keys of the cells of the octree of the bodies of one cube of a level.
fn push_cell_keys(
    alloc: Global,
    points: &Points,
    bodies: &[u32],
    level: u32,
    key: u64,
    out: &mut Vec<u64>,
) -> Result<(), OutOfMemory>
    requires within { All (λ n. n < length points.now) bodies.now }
    requires shallow { level ≤ LEVELS }
    requires key_small { key < 2 * 8 ^ level }
    ensures { OnOk result (out.new.items ≡ out.old.items ++ cell_keys_from (octree_from (site_at points.now) (LEVELS - level) level bodies.now) key) }
{
    if bodies.len() <= 1 || level == LEVELS {
        return Ok(());
    }
    out.push(key)?;
    for k in 0..8u32 {
        let part = bodies_in_octant(alloc, points, bodies, level, k)?;
        let child = 8 * key + u64::from(k);
        push_cell_keys(alloc, points, &part, level + 1, child, out)?;
    }
    Ok(())
}

/// How many of the keys are none of some others.
fn count_without(keys: &[u64], others: &[u64]) -> u32
    requires { length keys.now < 2 ^ 32 }
    ensures { result ≡ length (without keys.now others.now) }
{
    let mut count: u32 = 0;
    for key in keys {
        if !others.contains(key) {
            count += 1;
        }
    }
    count
}
