//! Insertion by one thread alone.

use octant_code::{OutOfMemory, Points};
use octree::Octree;
use std::alloc::Global;
use tree_rule::CELLS_OF_ONE;

/// An octree of all points, into which they are inserted in the order of their numbers. Its room is
/// taken before.
pub fn insert_all(alloc: Global, points: &Points) -> Result<Octree, OutOfMemory> {
    let count = points.len();
    let mut tree = Octree::empty(alloc, CELLS_OF_ONE * count)?;
    for n in 0..count {
        tree.insert(points, n);
    }
    Ok(tree)
}
