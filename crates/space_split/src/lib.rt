//! The builder that divides space first, by counts of bodies, and lets each worker build whole cubes
//! (SPACE of Shan and Singh, IPPS 1998, in outline).
#![tactic(auto)]

#[cfg(test)]
mod build_tests;
mod builder;
mod codes;
mod count;
mod cube;
mod interleave;
mod order;
mod shares;
mod split;
#[cfg(test)]
mod tests;

pub use bh_model::Piece;
pub use builder::{build, build_with_pieces};
pub use split::pieces;
