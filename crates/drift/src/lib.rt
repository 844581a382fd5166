//! The motion of bodies from frame to frame.
#![tactic(auto)]

mod axis;
mod body_motion;
mod exact;
mod motion;
mod turn;
mod turns;

pub use body_motion::BodyMotion;
pub use exact::{Exact, Velocity};
pub use motion::Motion;

#[cfg(test)]
mod tests;
