//! What a record says.

use crate::bodies::Body;
use crate::moves::Move;

/// What one record says.
#[derive(Clone, Copy, Debug, PartialEq, Eq)]
pub enum Entry {
    /// There is one more body.
    Body(Body),
    /// In the pass that is being read a body goes to a point.
    Move(Move),
    /// The pass that is being read ends.
    Pass,
}
