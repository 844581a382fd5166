//! What reaches outside: a source of bytes, a sink of bytes, the counts of their faults, and the
//! piece in which the parts of a text wait for a sink; and blocks of memory that a program keeps.
#![tactic(auto)]

mod blocks;
mod calls;
mod memory;
mod outside;
mod standard;
#[cfg(test)]
mod tests;
mod text;

pub use blocks::keep_blocks;
pub use calls::{Input, ReadAllFault, read_all, write_all};
pub use memory::{MemorySink, MemorySource, SureSink};
pub use outside::{Failed, Sink, Source};
pub use standard::{StdSink, StdSource};
pub use text::TextBuffer;
