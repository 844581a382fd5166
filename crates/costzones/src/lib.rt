//! The zones of the workers: an octree cut at equal shares of cost.
#![tactic(auto)]

mod cut;
mod descend;

pub use cut::{zone, zones};
