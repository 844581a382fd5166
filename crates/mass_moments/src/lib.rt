//! The moments of the cells of an octree.
#![tactic(auto)]

mod fill;
mod sums;
mod table;
mod theorems;

pub use bh_model::Moment;
pub use sums::moments;
pub use table::Moments;
pub use theorems::a_kept_cost_is_that_of_the_bodies;
