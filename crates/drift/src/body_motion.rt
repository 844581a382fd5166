//! The motion of one body.

use crate::exact::{Exact, Velocity};

/// Where a body is exactly, and how fast it moves.
#[derive(Clone, Copy, Debug, PartialEq, Eq)]
pub struct BodyMotion {
    pub exact: Exact,
    pub velocity: Velocity,
}
