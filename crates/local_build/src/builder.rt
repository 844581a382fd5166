//! All workers insert at the same time into one octree without locks.

ghost use Rattle.std.specs.Prelude.{◌≡◌, length, map, IfOk, OnErr, OnOk};
ghost use Rattle.std.specs.Arc.{arc_value};
ghost use Rattle.octree.specs.Stored.{IsOctreeOf};
ghost use Rattle.shared_tree.specs.Seen.{risen};
ghost use Rattle.build_workers.specs.Shares.{AreShares};

use crate::insertion::insert_shares;
use build_gate::Gate;
use build_workers::first_numbers;
use free_tree::FreeYard;
use octant_code::{OutOfMemory, Points};
use octree::Octree;
use std::alloc::Global;
use std::sync::Arc;
use std::thread::Threads;

/// The octree of all points, into which one worker a share inserts the bodies of its share, all at the
/// same time, with cells of its own (LOCAL: Shan and Singh, IPPS 1998). The worker of a share has the
/// share's position as its number and passes the gate. One share is worked by the calling thread. It
/// waits for no lock.
///
/// # Errors
///
/// `OutOfMemory` for want of memory, all of which is taken before the first insertion. The yard is as
/// it was then.
pub fn build<R: Threads + Sync, G: Gate>(
    rt: &R,
    alloc: Global,
    yard: &mut FreeYard,
    points: &Arc<Points>,
    shares: &[Vec<u32>],
    gate: &G,
) -> Result<Octree, OutOfMemory>
    requires { AreShares (length (arc_value points.now)) (map (λ s. s.items) shares.now) }
    ensures tree { IfOk result (λ t. IsOctreeOf (arc_value points.now) t) }
    ensures published { OnOk result (yard.new.published ≡ risen yard.old.published (length (arc_value points.now))) }
    ensures changes { OnOk result (yard.new.changes ≡ risen yard.old.changes (length (arc_value points.now))) }
    ensures refused { OnErr result (yard.new ≡ yard.old) }
{
    let bodies = first_numbers(alloc, points.len())?;
    let start = Octree::empty(alloc, 0)?;
    let octree = insert_shares(rt, alloc, yard, points, start, &bodies, shares, gate)?;
    octree.canonical_tree(points);
    let _whole = octree.whole();
    Ok(octree)
}
