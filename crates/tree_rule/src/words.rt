//! The words of an octree: where each stands, what it says, and what it names.

ghost use Rattle.std.specs.Prelude.{◌≡◌, ◌<◌, ◌^◌, ◌*◌};
ghost use Rattle.tree_rule.specs.Words.{body_word, cell_word, child_place, key_place, lock_place};
ghost use Rattle.tree_rule.specs.Naming.{NamesAs};

use octant_code::{LEVELS, MOST_BODIES};

/// The most cells that one more body may take: one of each level but the deepest.
pub const CELLS_OF_ONE: u32 = LEVELS;

/// The most cells that an octree may hold, 1,376,256.
pub const MOST_CELLS: u32 = CELLS_OF_ONE * MOST_BODIES;

/// The place of the root word's lock, behind the root word at place 0.
pub const ROOT_LOCK: usize = 1;

/// The place of the pool word, the number of the next cell that was never given out.
pub const POOL_PLACE: usize = 2;

/// The place of the first cell's words.
pub const FIRST_PLACE: usize = POOL_PLACE + 1;

/// How many words a cell has: those of its eight children, its key and its lock.
pub const CELL_WORDS: usize = 10;

/// The place of the first cell's key, behind the words of its children.
pub const KEY_PLACE: usize = FIRST_PLACE + 8;

/// The place of the first cell's lock, behind its key.
pub const LOCK_PLACE: usize = KEY_PLACE + 1;

/// What a word names: nothing, a body, or a cell.
#[derive(Clone, Copy, Debug, PartialEq, Eq)]
pub enum Named {
    Nothing,
    Body(u32),
    Cell(u32),
}

/// What a word names. Cells come first, by one test, since walks ask for nothing else of most words.
#[inline]
pub fn named_by(word: u64) -> Named
    requires { word < 2 ^ 33 }
    ensures { NamesAs word result }
{
    if word % 2 == 0 && word != 0 {
        Named::Cell((word / 2 - 1) as u32)
    } else if word == 0 {
        Named::Nothing
    } else {
        Named::Body((word / 2) as u32)
    }
}

/// The place of the word of a cell's child.
#[inline]
pub fn place_of_child(cell: u32, k: u32) -> usize
    ensures { result ≡ child_place cell k }
{
    FIRST_PLACE + CELL_WORDS * cell as usize + k as usize
}

/// The place of a cell's key.
#[inline]
pub fn place_of_key(cell: u32) -> usize
    ensures { result ≡ key_place cell }
{
    KEY_PLACE + CELL_WORDS * cell as usize
}

/// The place of a cell's lock.
#[inline]
pub fn place_of_lock(cell: u32) -> usize
    ensures { result ≡ lock_place cell }
{
    LOCK_PLACE + CELL_WORDS * cell as usize
}

/// The word that names a body.
#[inline]
pub fn word_of_body(body: u32) -> u64
    ensures { result ≡ body_word body }
{
    2 * u64::from(body) + 1
}

/// The word that names a cell.
#[inline]
pub fn word_of_cell(cell: u32) -> u64
    ensures { result ≡ cell_word cell }
{
    2 * u64::from(cell) + 2
}
