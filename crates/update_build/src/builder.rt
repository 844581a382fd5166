//! The update of an octree whose bodies moved.

ghost use Rattle.std.specs.Prelude.{◌≡◌, length, map, IfOk, OnErr};
ghost use Rattle.std.specs.Arc.{arc_value};
ghost use Rattle.octant_code.specs.Points.{site_at};
ghost use Rattle.bh_model.specs.Bodies.{numbers};
ghost use Rattle.bh_model.specs.Movers.{stay, update_counts};
ghost use Rattle.bh_model.specs.Trees.{cell_count};
ghost use Rattle.octree.specs.Stored.{IsCanonical, IsOctreeOf, IsStored, tree_of};
ghost use Rattle.shared_tree.specs.Seen.{risen};
ghost use Rattle.build_workers.specs.Shares.{AreShares};
ghost use Rattle.update_build.specs.Updating.{IsTreeOfItsBodies, KeepsNumbers};

use crate::lists::all_members;
use crate::taking::take_out;
use bh_model::UpdateCounts;
use build_gate::Gate;
use free_tree::FreeYard;
use local_build::insert_shares;
use octant_code::{OutOfMemory, Points};
use octree::Octree;
use std::alloc::Global;
use std::sync::Arc;
use std::thread::Threads;

/// The octree of bodies that moved, made from the one before (UPDATE: Shan and Singh, IPPS 1998, in
/// outline), and what changed. The bodies whose new points don't lie in the cubes of their leaves are
/// taken out, cells with fewer than two bodies go, and then the movers are inserted at their new
/// points, by one worker a share, all at the same time. Every other cell keeps its number, and
/// the numbers of those that went are handed out first.
///
/// The worker of a share inserts the share's movers, has the share's position as its number and passes
/// the gate. One share is worked by the calling thread. It waits for no lock.
///
/// # Errors
///
/// `OutOfMemory` for want of memory. The yard is as it was then, and the old octree is given up.
pub fn update<R: Threads + Sync, G: Gate>(
    rt: &R,
    alloc: Global,
    yard: &mut FreeYard,
    old: Octree,
    old_points: &Arc<Points>,
    new_points: &Arc<Points>,
    shares: &[Vec<u32>],
    gate: &G,
) -> Result<(Octree, UpdateCounts), OutOfMemory>
    requires shares { AreShares (length (arc_value new_points.now)) (map (λ s. s.items) shares.now) }
    requires old { IsOctreeOf (arc_value old_points.now) old }
    requires many { length (arc_value old_points.now) ≡ length (arc_value new_points.now) }
    ensures tree { IfOk result (λ r. IsOctreeOf (arc_value new_points.now) r.0) }
    ensures kept { IfOk result (λ r. KeepsNumbers (stay (site_at (arc_value old_points.now)) (site_at (arc_value new_points.now)) (numbers (length (arc_value new_points.now)))) old r.0) }
    ensures counts { IfOk result (λ r. r.1 ≡ update_counts (site_at (arc_value old_points.now)) (site_at (arc_value new_points.now)) (numbers (length (arc_value new_points.now)))) }
    ensures published { IfOk result (λ r. yard.new.published ≡ risen yard.old.published r.1.left) }
    ensures changes { IfOk result (λ r. yard.new.changes ≡ risen yard.old.changes r.1.left) }
    ensures refused { OnErr result (yard.new ≡ yard.old) }
{
    let olds: &Points = old_points;
    let news: &Points = new_points;
    let _rule = (olds.len(), news.len());
    let before = old.cells();
    let (stay, movers) = take_out(rt, alloc, old, olds, news, shares)?;
    let bodies = all_members(alloc, &movers)?;
    let kept = count_cells(&stay, news);
    let octree = insert_shares(rt, alloc, yard, new_points, stay, &bodies, &movers, gate)?;
    let after = count_cells(&octree, news);
    let counts = UpdateCounts {
        left: bodies.len() as u32,
        freed: before - kept,
        taken: after - kept,
    };
    Ok((octree, counts))
}

/// How many cells an octree has, which is the canonical one of its bodies.
fn count_cells(octree: &Octree, points: &Points) -> u32
    requires base { octree.now.base ≡ 1 }
    requires canonical { IsCanonical points.now octree.now }
    ensures rule { IsStored octree.now }
    ensures tree { IsTreeOfItsBodies points.now octree.now }
    ensures count { result ≡ cell_count (tree_of octree.now) }
{
    octree.canonical_tree(points);
    let _whole = octree.whole();
    octree.cells()
}
