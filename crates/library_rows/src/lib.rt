//! Tests that cross crates below the top call: the libraries beside the plain program, with memory at hand.
#![tactic(auto)]

#[cfg(test)]
mod plain;
#[cfg(test)]
mod private_trees;
#[cfg(test)]
mod regions;
#[cfg(test)]
mod zones;
