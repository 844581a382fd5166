//! The octree of points that moved, made from the octree before: bodies that left their cells are taken
//! out and put in again, and every other cell keeps its number.
#![tactic(auto)]

mod builder;
mod contraction;
mod edits;
mod leaves;
mod lists;
mod movers;
mod readers;
mod reading;
mod sweep;
mod taking;
#[cfg(test)]
mod tests;
mod workers;

pub use builder::update;
