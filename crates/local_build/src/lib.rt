//! The builder in which all workers insert into one shared octree without locks at the same time, each
//! with cells of its own.
#![tactic(auto)]

mod builder;
mod insertion;
#[cfg(test)]
mod steps;
#[cfg(test)]
mod tests;
mod uncounted;

pub use builder::build;
pub use insertion::insert_shares;
