//! Gates that the workers of a builder pass: one that does nothing, and one at which two workers meet.
#![tactic(auto)]

mod gate;
mod meet;
#[cfg(test)]
mod tests;

pub use gate::{Gate, GatePoint, OpenGate};
pub use meet::MeetGate;
