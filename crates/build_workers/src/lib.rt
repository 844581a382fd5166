//! What the builders of a shared tree have in common: workers that put shares of bodies in at the same
//! time.
#![tactic(auto)]

mod hands;
mod numbers;
mod order;
mod passes;
pub mod trial;
mod work;
mod workers;

pub use numbers::{deal_in_turns, deal_to_owners, first_numbers};
pub use order::rank_share;
pub use passes::{SharedInsert, SharedPasses};
pub use work::{InsertEach, Work};
pub use workers::work_shares;
