//! The rule of the shared words of an octree: where each word stands and what it names, what it is
//! for words to stand for a set of bodies, the theorems that say how they do, and a test of small
//! tables. The contract of each function in `theorems` is a theorem, and its body only looks at its
//! arguments.
#![tactic(auto)]

mod notes;
mod stands;
mod theorems;
mod words;

pub use notes::{BodyNote, CellNote, notes_stay, publication_goes_on};
pub use stands::words_stand;
pub use theorems::{
    body_in_empty_word, body_out_of_word, cell_in_empty_word, cell_over_body, cells_are_those_read,
    cells_under_other_numbers, empty_cell_out_of_word, exact_words_stand,
    exactly_under_other_numbers, flat_gives_canonical, flat_gives_own_order, last_body_for_cell,
    more_witnesses, words_name_what_is_read,
};
pub use words::{
    CELL_WORDS, CELLS_OF_ONE, FIRST_PLACE, KEY_PLACE, LOCK_PLACE, MOST_CELLS, Named, POOL_PLACE,
    ROOT_LOCK, named_by, place_of_child, place_of_key, place_of_lock, word_of_body, word_of_cell,
};
