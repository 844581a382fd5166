//! The builder in which each worker builds an octree of its bodies alone and merges it into one octree
//! without locks.
#![tactic(auto)]

mod builder;
mod fill;
mod shared;
#[cfg(test)]
mod tests;
mod worker;

pub use builder::build;
pub use worker::work;
