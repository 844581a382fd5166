//! The words of a closed table, copied back into an octree's.

ghost use Rattle.std.specs.Prelude.{◌≡◌, ℕ, ◌+◌, ◌<◌, ◌≤◌, length, vec_capacity};
ghost use Rattle.std.specs.Slots.{slots_items, slots_len, IsFull};
ghost use Rattle.tree_rule.specs.Words.{at_of, key_place};
ghost use Rattle.octree.specs.Stored.{word_count};
ghost use Rattle.tree_rule.specs.declared.words.TheConstants.{POOL_PLACE};
ghost use Rattle.tree_passes.specs.Counting.{times};
ghost use Rattle.shared_tree.specs.Ends.{AreCopied, IsRowCopied, IsTreeAtEnd};
ghost use Rattle.shared_tree.specs.Seen.{entrusted, seen_of, IsOf};

use crate::parts::{PassParts, TreeParts};
use atomic_table::Closed;
use octree::Octree;
use std::alloc::Global;
use tree_passes::{ROW_WORDS, close};
use tree_rule::{
    CELL_WORDS, FIRST_PLACE, POOL_PLACE, ROOT_LOCK, place_of_child, place_of_key, place_of_lock,
};

// How many cells there are up to the last one with a key, of so many.
fn written_cells(closed: &Closed<(), Global>, cells: u32) -> u32
    requires full { IsFull closed.now.words }
    requires inside { word_count cells ≤ slots_len closed.now.words }
    ensures few { result ≤ cells }
    ensures none { (c : ℕ) → result ≤ c → c < cells → at_of (slots_items closed.now.words) (key_place c) ≡ 0 }
{
    let mut written = cells;
    for _ in 0..cells {
        if closed.word(place_of_key(written - 1)) != 0 {
            break;
        }
        written -= 1;
    }
    written
}

// Copies the words of one cell, but for its lock, which becomes 0.
#[inline]
fn copy_cell(closed: &Closed<(), Global>, out: &mut [u64], cell: u32)
    requires full { IsFull closed.now.words }
    requires long { length out.old ≤ slots_len closed.now.words }
    requires inside { word_count (cell + 1) ≤ length out.old }
    ensures { IsRowCopied (slots_items closed.now.words) out.old out.new cell }
{
    let first = place_of_child(cell, 0);
    for part in 0..ROW_WORDS as usize {
        out[first + part] = closed.word(first + part);
    }
    out[place_of_lock(cell)] = 0;
}

// Copies the root word and the words of the first cells; locks and the pool word become 0.
fn copy_cells(closed: &Closed<(), Global>, out: &mut [u64], cells: u32)
    requires full { IsFull closed.now.words }
    requires long { length out.old ≤ slots_len closed.now.words }
    requires inside { word_count cells ≤ length out.old }
    ensures { AreCopied (slots_items closed.now.words) out.old out.new cells }
{
    out[0] = closed.word(0);
    out[ROOT_LOCK] = 0;
    out[POOL_PLACE] = 0;
    for cell in 0..cells {
        copy_cell(closed, out, cell);
    }
}

// How many cells of a closed table are used: those that were given out from a pool, and without one all
// up to the last that was written.
fn used_cells(closed: &Closed<(), Global>, cells: u32) -> u32
    requires full { IsFull closed.now.words }
    requires inside { word_count cells ≡ slots_len closed.now.words }
    requires given { word_count (at_of (slots_items closed.now.words) POOL_PLACE) ≤ slots_len closed.now.words }
    ensures within { result ≤ cells }
    ensures given { at_of (slots_items closed.now.words) POOL_PLACE ≤ result }
    ensures none { at_of (slots_items closed.now.words) POOL_PLACE ≡ 0 → (c : ℕ) → result ≤ c → c < cells → at_of (slots_items closed.now.words) (key_place c) ≡ 0 }
{
    let given = closed.word(POOL_PLACE) as u32;
    if given == 0 {
        written_cells(closed, cells)
    } else {
        given
    }
}

// A list with so many words, for which it has room.
fn resized(room: Vec<u64>, count: usize) -> Vec<u64>
    requires { count ≤ vec_capacity room }
    ensures { length result.items ≡ count }
{
    let mut words = room;
    match words.resize(count, 0) {
        Ok(()) => words,
        Err(_) => unreachable!(),
    }
}

/// Closes a tree with a pass that is entrusted with all that the tree was opened with. It takes no
/// memory.
pub fn close_parts(tree: TreeParts, pass: PassParts) -> Octree
    requires pass { IsOf (seen_of pass) tree }
    requires all { (x : ℕ) → times x tree.opening.todo ≡ times x (entrusted (seen_of pass)) }
    ensures { IsTreeAtEnd tree.opening pass.view.done pass.view.seen result }
{
    let TreeParts { table, room, .. } = tree;
    let cells = ((table.word_count() - FIRST_PLACE) / CELL_WORDS) as u32;
    let closed = close(table, pass.seat);
    let used = used_cells(&closed, cells);
    let mut words = resized(room, place_of_child(used, 0));
    copy_cells(&closed, &mut words, used);
    closed.free();
    Octree::of_words(words)
}
