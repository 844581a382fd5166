//! Tests of single calls that cross crates: those that may want memory, compared with the answers that they
//! give with memory at hand, tables of words, and the words of the command line.
#![tactic(auto)]

#[cfg(test)]
mod calls;
#[cfg(test)]
mod tables;
#[cfg(test)]
mod words;
