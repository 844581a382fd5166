//! The counts of an update of an octree.

/// How an octree was updated when all bodies moved.
#[derive(Clone, Copy, Debug, PartialEq, Eq)]
pub struct UpdateCounts {
    /// How many bodies left the cubes of their leaves.
    pub left: u32,
    /// How many cells of the octree before are not cells of what stayed.
    pub freed: u32,
    /// How many cells of the octree after are not cells of what stayed.
    pub taken: u32,
}
