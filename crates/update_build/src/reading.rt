//! What a cell leaves once the cells below it are contracted, read before anything is written.

ghost use Rattle.std.specs.Prelude.{◌≡◌, ◌+◌, ◌*◌, ◌<◌, ◌^◌, ℕ, IfOk, get_or, length};
ghost use Rattle.tree_rule.specs.Flat.{IsPlaceOf};
ghost use Rattle.tree_rule.specs.Words.{HasCell, at_of, cell_word};
ghost use Rattle.update_build.specs.Contracting.{AreInside, AreThinned, IsLeft, LeaveAt};

use crate::edits::Edit;
use octant_code::{OutOfMemory, Points};
use tree_rule::{Named, named_by, place_of_child, word_of_cell};

#[cycle(reading)]
#[inline(always)]
/// The word that is left at a place, by the key of its cube, once the cells in the cube are contracted,
/// and the edits that do so, those of children first. Cells so many levels below are left as they are. It
/// is compiled into the loop over the children of a cell, so that only cells are called for.
pub fn read_word(
    points: &Points,
    words: &Vec<u64>,
    place: usize,
    key: u64,
    depth: u32,
    edits: &mut Vec<Edit>,
) -> Result<u64, OutOfMemory>
    requires thinned { AreThinned points.now words.now.items }
    requires place { IsPlaceOf (at_of words.now.items) 0 1 (HasCell words.now.items) key place }
    requires inside { AreInside (length words.now.items) edits.old.items }
    ensures inside { IfOk result (λ r. AreInside (length words.now.items) edits.new.items) }
    ensures small { IfOk result (λ r. r < 2 ^ 33) }
    ensures left { IfOk result (λ r. LeaveAt points.now words.now.items depth key place edits.old.items edits.new.items r) }
{
    let _rule = points.len();
    let word = words[place];
    if depth == 0 {
        return Ok(word);
    }
    match named_by(word) {
        Named::Cell(cell) => read_cell(points, words, place, cell, key, depth - 1, edits),
        _ => Ok(word),
    }
}

#[cycle(reading)]
/// The same of a place whose word names a cell. Cells so many levels below its children are left as they
/// are.
fn read_cell(
    points: &Points,
    words: &Vec<u64>,
    place: usize,
    cell: u32,
    key: u64,
    below: u32,
    edits: &mut Vec<Edit>,
) -> Result<u64, OutOfMemory>
    requires thinned { AreThinned points.now words.now.items }
    requires place { IsPlaceOf (at_of words.now.items) 0 1 (HasCell words.now.items) key place }
    requires cell { at_of words.now.items place ≡ cell_word cell }
    requires inside { AreInside (length words.now.items) edits.old.items }
    ensures inside { IfOk result (λ r. AreInside (length words.now.items) edits.new.items) }
    ensures small { IfOk result (λ r. r < 2 ^ 33) }
    ensures left { IfOk result (λ r. LeaveAt points.now words.now.items (below + 1) key place edits.old.items edits.new.items r) }
{
    let _rule = points.len();
    let mut children = [0u64; 8];
    for k in 0..8u32 {
        let child = 8 * key + u64::from(k);
        children[k as usize] = read_word(
            points,
            words,
            place_of_child(cell, k),
            child,
            below,
            edits,
        )?;
    }
    let left = word_left(&children, cell);
    if left != word_of_cell(cell) {
        edits.push(Edit { place, word: left })?;
    }
    Ok(left)
}

/// The word that a cell leaves, of whose children these words are left.
fn word_left(children: &[u64; 8], cell: u32) -> u64
    requires small { (k : ℕ) → k < 8 → get_or children.now k 0 < 2 ^ 33 }
    requires fits { cell_word cell < 2 ^ 33 }
    ensures left { IsLeft (λ k. get_or children.now k 0) cell result }
    ensures small { result < 2 ^ 33 }
{
    let mut left = 0;
    for k in 0..8usize {
        let word = children[k];
        match named_by(word) {
            Named::Nothing => {}
            Named::Cell(_) => return word_of_cell(cell),
            Named::Body(_) => {
                if left != 0 {
                    return word_of_cell(cell);
                }
                left = word;
            }
        }
    }
    left
}
