//! The engine: it holds the bodies of a run, makes their trees and frames, and moves them from frame to frame.
#![tactic(auto)]

mod engine;
mod moving;
mod shares;
mod stage;
mod sums;
mod tree;

pub use bh_model::{Builder, Plan};
pub use engine::Engine;
pub use shares::first_shares;
