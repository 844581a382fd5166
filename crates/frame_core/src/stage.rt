//! How far an engine is with its bodies.

use bh_model::Pull;
use probe::Frame;

/// The figures of a frame, the depth of its tree, the zones of the workers, and the pulls on the bodies.
#[derive(Drop)]
pub struct FrameParts {
    pub figures: Frame,
    pub depth: u32,
    pub zones: Vec<Vec<u32>>,
    pub pulls: Vec<Pull>,
}

/// What an engine holds for its bodies' points.
#[derive(Drop)]
pub enum Stage {
    /// The points have no tree.
    Bare,
    /// The last tree is that of the points.
    Tree,
    /// The last tree is that of the points, and this is its frame.
    Frame(FrameParts),
    /// A call was refused for want of memory.
    Spent,
}
