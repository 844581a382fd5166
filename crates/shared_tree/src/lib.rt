//! What shared octrees have in common, whichever way their published words are written: the descent,
//! the search, passes that are split and joined, and how trees are opened and closed.
#![tactic(auto)]

mod copy;
mod descent;
mod merge;
mod parts;
mod publisher;
mod search;
mod start;
mod stock;
mod subtrees;
mod yard;

pub use descent::insert;
pub use merge::{Merged, merge_part};
pub use parts::{PassParts, TreeParts};
pub use publisher::{Batched, Publisher, Spot, publish};
pub use search::find;
pub use start::{Deal, deal_region};
pub use subtrees::{Copied, copy_part};
pub use yard::YardParts;
