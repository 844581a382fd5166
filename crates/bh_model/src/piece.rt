//! The pieces of space that workers are given.

/// A cube that is built by one worker: its key, how many bodies lie in it, and the worker's number.
#[derive(Clone, Copy, Debug, PartialEq, Eq)]
pub struct Piece {
    pub key: u64,
    pub count: u32,
    pub worker: u32,
}
