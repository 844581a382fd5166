//! The limits that all crates keep.

/// How many levels of cubes lie below the whole cube: a point's cube at level 21 holds no other point.
pub const LEVELS: u32 = 21;

/// How many positions the cube has along each axis.
pub const SIDE: u32 = 1 << LEVELS;

/// How many bodies a scene may have, and how many points a list.
pub const MOST_BODIES: u32 = 65_536;
