//! A plain slow program for what the definitions say: the text and the order of the canonical octree
//! of a list of bodies, moments, zones and pulls. It goes by lists, as the definitions do, and the
//! tests of the other programs compare with it.
#![tactic(auto)]

mod blocks;
mod moments;
mod pieces;
mod pulls;
#[cfg(test)]
mod tests;
mod trees;
mod updates;
mod zones;

pub use blocks::plain_blocks;
pub use moments::plain_moment;
pub use pieces::plain_pieces;
pub use pulls::plain_pull;
pub use trees::{plain_order, plain_text};
pub use updates::plain_update_counts;
pub use zones::plain_zone;
