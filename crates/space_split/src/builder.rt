//! Each worker builds the octrees of its pieces, and they are put together.

ghost use Rattle.std.specs.Prelude.{◌≡◌, IfOk, length, map};
ghost use Rattle.octant_code.specs.Points.{site_at};
ghost use Rattle.bh_model.specs.Bodies.{numbers};
ghost use Rattle.bh_model.specs.Pieces.{pieces};
ghost use Rattle.bh_model.specs.Plans.{HasWorkers};
ghost use Rattle.octree.specs.ByKeys.{StandsByKeys};
ghost use Rattle.octree.specs.Stored.{IsOctreeOf};

use crate::codes::{codes_alone, sorted_bodies};
use crate::shares::{all_parts, deal_shares, work_all};
use crate::split::{deal, piece_limit, undivided_cubes};
use build_gate::Gate;
use octant_code::{OutOfMemory, Points};
use octree::Octree;
use std::alloc::Global;
use std::thread::Threads;

/// The octree of all points, by 1 to 64 workers. Space is divided into pieces, each worker builds the
/// octrees of its pieces, all workers at once, and they are put together without locks (SPACE: Shan
/// and Singh, IPPS 1998, in outline). The cells above the pieces come first, and then those of each
/// piece in turn. A worker passes the gate at `Start`, at `AfterFirst` when its first piece is built,
/// and at `End`. One worker alone is at work in the calling thread.
///
/// # Errors
///
/// `OutOfMemory` for want of memory.
pub fn build<R: Threads + Sync, G: Gate>(
    rt: &R,
    alloc: Global,
    points: &Points,
    workers: u32,
    gate: &G,
) -> Result<Octree, OutOfMemory>
    requires { HasWorkers workers }
    ensures tree { IfOk result (λ t. IsOctreeOf points.now t) }
    ensures by_keys { IfOk result (λ t. StandsByKeys (map (λ p. p.key) (pieces (site_at points.now) workers (numbers (length points.now)))) t) }
{
    let (tree, _) = build_with_pieces(rt, alloc, points, workers, gate)?;
    Ok(tree)
}

/// The octree that `build` gives, and the number of pieces that it is built from.
///
/// # Errors
///
/// `OutOfMemory` for want of memory.
pub fn build_with_pieces<R: Threads + Sync, G: Gate>(
    rt: &R,
    alloc: Global,
    points: &Points,
    workers: u32,
    gate: &G,
) -> Result<(Octree, u32), OutOfMemory>
    requires { HasWorkers workers }
    ensures tree { IfOk result (λ r. IsOctreeOf points.now r.0) }
    ensures by_keys { IfOk result (λ r. StandsByKeys (map (λ p. p.key) (pieces (site_at points.now) workers (numbers (length points.now)))) r.0) }
    ensures count { IfOk result (λ r. r.1 ≡ length (pieces (site_at points.now) workers (numbers (length points.now)))) }
{
    let count = points.len();
    let bodies = sorted_bodies(rt, alloc, points, workers)?;
    let codes = codes_alone(alloc, &bodies)?;
    let cubes = undivided_cubes(rt, alloc, &codes, piece_limit(count, workers), workers)?;
    let pieces = deal(alloc, &cubes, count, workers)?;
    let shares = deal_shares(alloc, &cubes, &pieces, workers)?;
    let built = work_all(rt, alloc, points, &bodies, &shares, gate)?;
    let parts = all_parts(alloc, built)?;
    let tree = Octree::assembled(alloc, points, &parts)?;
    tree.canonical_tree(points);
    Ok((tree, pieces.len() as u32))
}
