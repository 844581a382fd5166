//! Theorems about the definitions. The contract of each function is a theorem, and its body only looks
//! at its arguments.

mod blocks;
mod movers;
mod pieces;
mod pulls;
mod trees;
mod zones;

pub use blocks::{a_body_has_a_block, blocks_are_at_most_the_bodies};
pub use movers::{cells_that_stay_are_in_both, counts_are_differences_of_cells};
pub use pieces::{each_body_is_in_one_piece, pieces_stand_in_tree_order};
pub use pulls::{a_pull_is_below_the_bound, a_term_is_at_most_the_constant_times_the_mass};
pub use trees::{
    an_octree_has_at_most_21_cells_a_body, cells_are_where_two_bodies_lie,
    one_tree_for_every_order, order_has_each_body_once,
};
pub use zones::{a_cells_cost_is_that_of_its_bodies, each_body_is_in_one_zone};
