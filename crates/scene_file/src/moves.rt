//! Moves of bodies.

use octant_code::Point;

/// In a pass, a body goes to a point.
#[derive(Clone, Copy, Debug, PartialEq, Eq)]
pub struct Move {
    /// The number of the body.
    pub body: u32,
    /// Where it goes.
    pub to: Point,
}

/// How many moves a scene may have, in all its passes together.
pub const MOST_MOVES: u32 = 262_144;

/// How many passes a scene may have.
pub const MOST_PASSES: u32 = 1_024;
