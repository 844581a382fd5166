//! Octrees of numbered bodies in words: insertion one body at a time, and the cells, the depth, the
//! order and the text of a tree.
#![tactic(auto)]

mod assemble;
mod chain;
mod descend;
mod extent;
mod free;
mod node;
mod octree;
mod order;
mod ranks;
mod subtree;
#[cfg(test)]
mod tests;
mod text;

pub use extent::Extent;
pub use node::{CellNo, Node};
pub use octree::Octree;
pub use ranks::{body_of, rank_of};
pub use subtree::{CellAt, Subtree, Top};
