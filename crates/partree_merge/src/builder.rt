//! Each worker builds an octree of its bodies alone, and all are merged into one octree without locks.

ghost use Rattle.std.specs.Prelude.{◌≡◌, ◌≤◌, ℕ, length, map, IfOk, OnErr, OnOk};
ghost use Rattle.std.specs.Arc.{arc_value};
ghost use Rattle.octant_code.specs.Points.{site_at};
ghost use Rattle.bh_model.specs.Blocks.{blocks_of_shares};
ghost use Rattle.octree.specs.Stored.{IsOctreeOf};
ghost use Rattle.shared_tree.specs.Seen.{risen};
ghost use Rattle.build_workers.specs.Shares.{AreShares};
ghost use Rattle.partree_merge.specs.Merging.{holders};

use crate::shared::{MergeOwn, Unlocked};
use build_gate::Gate;
use build_workers::{first_numbers, work_shares};
use free_tree::FreeYard;
use octant_code::{OutOfMemory, Points};
use octree::Octree;
use std::alloc::Global;
use std::sync::Arc;
use std::thread::Threads;

/// The octree of all points, into which one worker a share merges the octree of its share, all at the
/// same time, with cells of its own (PARTREE: Shan and Singh, IPPS 1998). The worker of a share has the
/// share's position as its number and passes the gate. One share is worked by the calling thread. It
/// waits for no lock.
///
/// The yard's changes rise by at most the blocks of the shares, by at least the number of shares that
/// hold a point, and so by one where one share alone holds points.
///
/// # Errors
///
/// `OutOfMemory` for want of memory, all of which is taken before the first insertion. The yard is as
/// it was then.
pub fn build<R: Threads + Sync, G: Gate>(
    rt: &R,
    alloc: Global,
    yard: &mut FreeYard,
    points: &Arc<Points>,
    shares: &[Vec<u32>],
    gate: &G,
) -> Result<Octree, OutOfMemory>
    requires { AreShares (length (arc_value points.now)) (map (λ s. s.items) shares.now) }
    ensures tree { IfOk result (λ t. IsOctreeOf (arc_value points.now) t) }
    ensures published { OnOk result (yard.new.published ≡ risen yard.old.published (length (arc_value points.now))) }
    ensures changes { OnOk result ((count : ℕ) × (holders (map (λ s. s.items) shares.now) ≤ count) × (count ≤ blocks_of_shares (site_at (arc_value points.now)) (length (arc_value points.now)) (map (λ s. s.items) shares.now)) × (yard.new.changes ≡ risen yard.old.changes count)) }
    ensures one { OnOk result (holders (map (λ s. s.items) shares.now) ≡ 1 → yard.new.changes ≡ risen yard.old.changes 1) }
    ensures refused { OnErr result (yard.new ≡ yard.old) }
{
    let todo = first_numbers(alloc, points.len())?;
    let start = Octree::empty(alloc, 0)?;
    let (tree, mut pass) = yard.open(alloc, points, start, &todo)?;
    let shared = Unlocked { tree: &tree };
    let work = MergeOwn { points };
    work_shares(rt, alloc, &shared, &mut pass, shares, &work, gate)?;
    let octree = yard.close(tree, pass);
    octree.canonical_tree(points);
    let _whole = octree.whole();
    Ok(octree)
}
