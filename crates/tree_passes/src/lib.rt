//! Passes over the words of a shared octree: what each pass knows, the rule of the words, which holds
//! between any two steps of any number of passes, the single steps, and the code that a tree without
//! locks and a tree with locks share.
#![tactic(auto)]

mod cells;
mod ends;
mod exchanges;
mod loads;
mod locks;
mod parts;
mod plays;
mod rule;
mod view;

pub use cells::{Cube, cells_to_part, part_two, read_word, write_cell};
pub use ends::{Tree, close, open_free, open_locked};
pub use exchanges::exchange;
pub use loads::{load, look};
pub use locks::{draw_cell, load_locked, store_locked, try_lock, unlock};
pub use parts::{join_passes, split_pass};
pub use plays::Batch;
pub use rule::{Pass, TreeRule, Words, between_steps};
pub use view::{KEY_PART, ROW_WORDS, Told, View, Writing};
