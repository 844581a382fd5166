//! What one body sees of a scene.

use crate::least::SIDES;
use bh_model::Law;
use mass_moments::Moments;
use octant_code::Point;
use scene_file::Bodies;

/// A scene with the moments of its octree, the law by which it pulls, and the body on which it does.
#[derive(Clone, Copy)]
pub struct View<'a> {
    pub moments: &'a Moments,
    pub bodies: &'a Bodies,
    pub law: &'a Law,
    /// The least squared distances at which cubes of the sides `2^0` to `2^21` are far.
    pub least: &'a [u64; SIDES],
    /// The body's number.
    pub n: u32,
    /// Where the body is.
    pub from: Point,
    /// The body's key at the deepest level.
    pub own: u64,
}
