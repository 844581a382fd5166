//! The bodies that leave their cells are taken out of an octree.

ghost use Rattle.std.specs.Prelude.{◌≡◌, ◌<◌, ◌≤◌, ℕ, All, IfOk, length, map};
ghost use Rattle.octree.specs.Stored.{IsOctreeOf};
ghost use Rattle.tree_passes.specs.Counting.{sum_of, times};
ghost use Rattle.update_build.specs.Staying.{StaysOf, movers_in};

use crate::contraction::what_stays;
use crate::movers::search_shares;
use crate::workers::sweep;
use octant_code::{OutOfMemory, Points};
use octree::Octree;
use std::alloc::Global;
use std::thread::Threads;

/// The octree of the bodies that stay in their cells when all bodies move, at their new points, and the
/// bodies of each share that leave. One worker a share looks for them, takes them out and looks for the
/// cells that go, all at the same time. The octree has no spare cells, and each of its cells has its number from before.
///
/// # Errors
///
/// `OutOfMemory` for want of memory. The octree before is given up then.
pub fn take_out<R: Threads + Sync>(
    rt: &R,
    alloc: Global,
    old: Octree,
    old_points: &Points,
    new_points: &Points,
    shares: &[Vec<u32>],
) -> Result<(Octree, Vec<Vec<u32>>), OutOfMemory>
    requires there { All (λ s. All (λ n. n < length new_points.now) s.items) shares.now }
    requires all { (n : ℕ) → n < length new_points.now → 1 ≤ sum_of (times n) (map (λ s. s.items) shares.now) }
    requires old { IsOctreeOf old_points.now old }
    requires many { length old_points.now ≡ length new_points.now }
    ensures stays { IfOk result (λ r. StaysOf old_points.now new_points.now old r.0) }
    ensures movers { IfOk result (λ r. map (λ s. s.items) r.1.items ≡ map (movers_in old_points.now new_points.now) (map (λ s. s.items) shares.now)) }
{
    let _rule = (old.held(), old_points.len());
    let words = old.without_spare().into_words();
    let found = search_shares(rt, alloc, &words, old_points, new_points, shares)?;
    let words = sweep(rt, alloc, words, &found.places)?;
    let workers = if shares.is_empty() {
        1
    } else {
        shares.len() as u64
    };
    let stays = what_stays(rt, alloc, old_points, new_points, words, workers)?;
    Ok((stays, found.movers))
}
