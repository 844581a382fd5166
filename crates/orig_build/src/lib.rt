//! The builder in which all workers insert into one shared octree with locks at the same time.
#![tactic(auto)]

mod builder;
#[cfg(test)]
mod tests;
mod under_locks;

pub use builder::build;
