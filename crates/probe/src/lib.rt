//! What probes see of a run, and the probes: what each keeps of the frames that it saw, when it has
//! seen enough, and the line that it tells.
#![tactic(auto)]

mod balance;
mod first;
mod frame;
mod kind;
mod momentum;
mod probe;
mod put;
mod refusing;

pub use balance::Balance;
pub use first::FirstFrames;
pub use frame::Frame;
pub use kind::{Kind, Verdict};
pub use momentum::Momentum;
pub use probe::Probe;
pub use refusing::RefusingBalance;

#[cfg(test)]
mod tests;
