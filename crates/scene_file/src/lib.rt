//! Scenes of bodies, and the reading and writing of their files.
#![tactic(auto)]

mod bodies;
mod entry;
mod fault;
mod gathering;
mod made;
mod moves;
mod passes;
mod passing;
mod reading;
mod record;
mod scene;
mod text;

pub use bodies::{Bodies, Body};
pub use fault::SceneFault;
pub use made::{MULTIPLIER, Shape, made_scene};
pub use moves::{MOST_MOVES, MOST_PASSES, Move};
pub use passes::Passes;
pub use scene::{MOST_BYTES, Scene, read_scene};
pub use text::scene_text;

#[cfg(test)]
mod tests;
