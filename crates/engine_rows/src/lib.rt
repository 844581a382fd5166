//! Tests of an engine's frames, which stand on no text: bodies that move, and workers who meet.
#![tactic(auto)]

#[cfg(test)]
mod steps;
