//! The moments of all cells of an octree in one pass.

ghost use Rattle.std.specs.Prelude.{◌≡◌, ◌<◌, ℕ, All, IfOk, length};
ghost use Rattle.bh_model.specs.Bodies.{IsIn};
ghost use Rattle.bh_model.specs.Trees.{order};
ghost use Rattle.bh_model.specs.Zones.{IsCost, cost_at};
ghost use Rattle.mass_moments.specs.Kept.{AreMoments, matter_of};
ghost use Rattle.octree.specs.Stored.{IsOctreeOf, tree_of};
ghost use Rattle.scene_file.specs.Bodies.{sites_of};

use crate::fill::fill;
use crate::table::Moments;
use bh_model::Moment;
use octant_code::{OutOfMemory, Point};
use octree::Octree;
use scene_file::Bodies;
use std::alloc::Global;

/// What stands where no cell's centre is put.
const ORIGIN: Point = Point { x: 0, y: 0, z: 0 };

/// The moment of each cell of the canonical octree of all bodies that can be reached, with a cost from
/// 1 to 65,536 for each body (Barnes and Hut, Nature 324, 1986).
pub fn moments<R>(
    _rt: &R,
    alloc: Global,
    tree: &Octree,
    bodies: &Bodies,
    costs: &[u32],
) -> Result<Moments, OutOfMemory>
    requires octree { IsOctreeOf (sites_of bodies.now) tree.now }
    requires one_cost_each { length costs.now ≡ length bodies.now }
    requires costs { All IsCost costs.now }
    ensures moments { IfOk result (λ list. AreMoments tree.now (matter_of bodies.now) (cost_at costs.now) list) }
    ensures costs_of_bodies { IfOk result (λ _. (n : ℕ) → IsIn (order (tree_of tree.now)) n → n < length costs.now) }
{
    let _rule = bodies.len();
    let used = (tree.held() - tree.spare()) as usize;
    let Ok(mut list) = vec![in alloc; Moment::none(); used] else {
        return Err(OutOfMemory);
    };
    let Ok(mut centres) = vec![in alloc; ORIGIN; used] else {
        return Err(OutOfMemory);
    };
    fill(&tree.whole(), bodies, costs, &mut list, &mut centres);
    Ok(Moments::with_centres(list, centres))
}
