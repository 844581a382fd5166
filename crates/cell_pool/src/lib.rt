//! Regions: lists of cell numbers that are free to be used.
#![tactic(auto)]

mod region;

pub use region::Region;
