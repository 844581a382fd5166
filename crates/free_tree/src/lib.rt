//! An octree in shared words without locks, into which any number of passes insert at the same time.
#![tactic(auto)]

mod exchanger;
#[cfg(test)]
mod tests;
mod tree;
mod yard;

pub use tree::{FreePass, FreeTree};
pub use yard::FreeYard;
