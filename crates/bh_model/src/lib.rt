//! What bodies and octrees are, over plain lists and numbers: the canonical octree of a list of
//! bodies, its order and its text, moments, pulls and zones, and the theorems about them.
#![tactic(auto)]

mod moment;
mod piece;
mod plan;
mod pull;
mod term;
mod theorems;
mod update;

pub use moment::Moment;
pub use piece::Piece;
pub use plan::{Builder, Plan};
pub use pull::{Law, Pull};
pub use term::{plain_component, plain_term};
pub use theorems::{
    a_body_has_a_block, a_cells_cost_is_that_of_its_bodies, a_pull_is_below_the_bound,
    a_term_is_at_most_the_constant_times_the_mass, an_octree_has_at_most_21_cells_a_body,
    blocks_are_at_most_the_bodies, cells_are_where_two_bodies_lie, cells_that_stay_are_in_both,
    counts_are_differences_of_cells, each_body_is_in_one_piece, each_body_is_in_one_zone,
    one_tree_for_every_order, order_has_each_body_once, pieces_stand_in_tree_order,
};
pub use update::UpdateCounts;
