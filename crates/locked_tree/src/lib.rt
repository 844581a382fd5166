//! A shared octree whose published words are written under the locks of their cells.
#![tactic(auto)]

mod locking;
mod source;
#[cfg(test)]
mod tests;
mod tree;
mod yard;

pub use tree::{LockedPass, LockedTree};
pub use yard::{LockedYard, Pool};
