//! The nodes of the flat table, and where the bodies' own stand.

use octant_code::Point;

/// A body or a cell of an octree, as walks read it: 32 bytes.
#[derive(Clone, Copy)]
pub struct WalkNode {
    /// The body's point, or the cell's centre of mass, rounded down.
    pub at: Point,
    /// How many nodes its subtree has, itself included.
    pub skip: u32,
    /// The least squared distance at which it is taken: that of its cube's side for a cell, and 1 for a
    /// body, which is the least that another body has.
    pub least: u64,
    /// The mass of the body, or of all bodies below the cell.
    pub mass: u64,
}

/// Nodes that are laid one after another, and whose each one is: one more than a body's number, and 0 for
/// a cell.
#[derive(Drop)]
pub struct Laid {
    pub nodes: Vec<WalkNode>,
    pub owners: Vec<u32>,
}

/// The nodes of an octree in tree order, each cell before what is below it, and the place of each body's
/// own node by the body's number.
#[derive(Drop)]
pub struct FlatTable {
    pub nodes: Vec<WalkNode>,
    pub places: Vec<u32>,
}
