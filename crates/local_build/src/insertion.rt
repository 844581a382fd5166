//! All workers insert at the same time into one octree without locks.

ghost use Rattle.std.specs.Prelude.{◌≡◌, length, map, IfOk, OnErr, OnOk};
ghost use Rattle.std.specs.Arc.{arc_value};
ghost use Rattle.octree.specs.Stored.{IsCanonical};
ghost use Rattle.shared_tree.specs.Seen.{risen};
ghost use Rattle.local_build.specs.Insertion.{AreNew, AreSharesOf, IsWithBodies};

use crate::uncounted::Uncounted;
use build_gate::Gate;
use build_workers::{InsertEach, work_shares};
use free_tree::FreeYard;
use octant_code::{OutOfMemory, Points};
use octree::Octree;
use std::alloc::Global;
use std::sync::Arc;
use std::thread::Threads;

/// An octree with more bodies, of which one worker a share inserts those of its share, all at the same
/// time, with cells of its own. The cells of the octree keep their numbers; those that it holds and
/// that can't be reached are handed out first. The worker of a share has the share's position as its
/// number and passes the gate. One share is worked by the calling thread. It waits for no lock.
///
/// # Errors
///
/// `OutOfMemory` for want of memory, all of which is taken before the first insertion. The yard is as
/// it was then, and the octree is given up.
pub fn insert_shares<R: Threads + Sync, G: Gate>(
    rt: &R,
    alloc: Global,
    yard: &mut FreeYard,
    points: &Arc<Points>,
    octree: Octree,
    bodies: &[u32],
    shares: &[Vec<u32>],
    gate: &G,
) -> Result<Octree, OutOfMemory>
    requires base { octree.base ≡ 1 }
    requires canonical { IsCanonical (arc_value points.now) octree }
    requires bodies { AreNew (arc_value points.now) octree bodies.now }
    requires shares { AreSharesOf bodies.now (map (λ s. s.items) shares.now) }
    ensures tree { IfOk result (λ t. IsWithBodies (arc_value points.now) octree bodies.now t) }
    ensures published { OnOk result (yard.new.published ≡ risen yard.old.published (length bodies.now)) }
    ensures changes { OnOk result (yard.new.changes ≡ risen yard.old.changes (length bodies.now)) }
    ensures refused { OnErr result (yard.new ≡ yard.old) }
{
    let (tree, mut pass) = yard.open(alloc, points, octree, bodies)?;
    let shared = Uncounted { tree: &tree };
    let work = InsertEach { points };
    work_shares(rt, alloc, &shared, &mut pass, shares, &work, gate)?;
    Ok(yard.close(tree, pass))
}
