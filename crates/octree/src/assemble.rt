//! Octrees of cubes that hold no other of them, put together into one octree of the whole cube.

ghost use Rattle.std.specs.Prelude.{◌≡◌, ◌*◌, ◌+◌, ◌<◌, ◌≤◌, ◌↔◌, ◌^◌, ℕ, IfOk, IsTrue, length};
ghost use Rattle.octant_code.specs.Points.{site_at};
ghost use Rattle.octant_code.specs.Prefixes.{IsProperPrefix};
ghost use Rattle.octant_code.specs.Space.{IsKey};
ghost use Rattle.tree_rule.specs.Flat.{IsPlaceOf, IsShared};
ghost use Rattle.tree_rule.specs.Words.{HasBody, at_of, cell_word};
ghost use Rattle.octree.specs.ByKeys.{AreParts, IsInSome};
ghost use Rattle.octree.specs.Growing.{AreFilled, ArePlaced, IsCellPut, IsCellThere, IsCopied, IsFreePlace, IsGrowing, IsMade, IsSource, IsWayMade, cells_in};

use crate::chain::{add_cell, cells_of_words};
use crate::octree::Octree;
use octant_code::{OutOfMemory, Points};
use std::alloc::Global;
use tree_rule::{CELL_WORDS, Named, named_by, place_of_child, word_of_body, word_of_cell};

/// Puts a cell with no body below the empty word at a place.
fn put_cell(
    words: &mut Vec<u64>,
    key: u64,
    place: usize,
    points: &Points,
    parts: &[Octree],
) -> Result<u32, OutOfMemory>
    requires growing { IsGrowing points.now parts.now words.old.items }
    requires place { IsFreePlace words.old.items key place }
    requires shared { IsShared (site_at points.now) (IsInSome parts.now) key }
    ensures { IfOk result (λ c. IsCellPut points.now parts.now words.old.items words.new.items key place c) }
{
    let _read = (points.len(), parts.len());
    let cell = cells_of_words(words.len());
    words.reserve(CELL_WORDS)?;
    add_cell(words, cell, key);
    words[place] = word_of_cell(cell);
    Ok(cell)
}

/// The cell whose word, of a cube that has a key, stands at a place. If the word is empty, the cell is
/// made, with no body.
fn cell_at(
    words: &mut Vec<u64>,
    key: u64,
    place: usize,
    points: &Points,
    parts: &[Octree],
) -> Result<u32, OutOfMemory>
    requires growing { IsGrowing points.now parts.now words.old.items }
    requires bare { (n : ℕ) → HasBody words.old.items n → ⊥ }
    requires place { IsPlaceOf (at_of words.old.items) 0 1 (IsMade words.old.items) key place }
    requires shared { IsShared (site_at points.now) (IsInSome parts.now) key }
    ensures { IfOk result (λ c. IsCellThere points.now parts.now words.old.items words.new.items key c) }
{
    match named_by(words[place]) {
        Named::Nothing => put_cell(words, key, place, points, parts),
        Named::Body(_) => unreachable!(),
        Named::Cell(cell) => Ok(cell),
    }
}

/// The place of the word of a key's cube. The cells above it that are not there yet are made, each
/// with no body.
pub fn place_below(
    words: &mut Vec<u64>,
    key: u64,
    points: &Points,
    parts: &[Octree],
) -> Result<usize, OutOfMemory>
    requires key { IsKey key }
    requires growing { IsGrowing points.now parts.now words.old.items }
    requires bare { (n : ℕ) → HasBody words.old.items n → ⊥ }
    requires shared { (upper : ℕ) → IsProperPrefix upper key → IsShared (site_at points.now) (IsInSome parts.now) upper }
    ensures { IfOk result (λ place. IsWayMade points.now parts.now words.old.items words.new.items key place) }
{
    if key < 8 {
        return Ok(0);
    }
    let above = place_below(words, key / 8, points, parts)?;
    let cell = cell_at(words, key / 8, above, points, parts)?;
    Ok(place_of_child(cell, (key % 8) as u32))
}

/// Whether a word names a cell.
#[inline]
fn names_cell(word: u64) -> bool
    requires { word < 2 ^ 33 }
    ensures { IsTrue result ↔ ((c : ℕ) × (word ≡ cell_word c)) }
{
    match named_by(word) {
        Named::Nothing => false,
        Named::Body(_) => false,
        Named::Cell(_) => true,
    }
}

/// Copies what stands below a word of an octree, whose cube has a key, to the empty word at a place,
/// each cell before those below it. A child that is no cell is one write, whether it is a body or nothing:
/// a branch on that would be foreseen only half the time.
pub fn copy_below(
    from: &Octree,
    word: u64,
    key: u64,
    words: &mut Vec<u64>,
    place: usize,
    points: &Points,
    parts: &[Octree],
) -> Result<(), OutOfMemory>
    requires source { IsSource points.now parts.now from.now key word }
    requires growing { IsGrowing points.now parts.now words.old.items }
    requires place { IsFreePlace words.old.items key place }
    ensures { IfOk result (λ done. IsCopied points.now parts.now from.now key word words.old.items words.new.items place) }
{
    let _held = from.held();
    match named_by(word) {
        Named::Nothing => {}
        Named::Body(n) => words[place] = word_of_body(n),
        Named::Cell(cell) => {
            let copy = put_cell(words, key, place, points, parts)?;
            for k in 0..8u32 {
                let child = from.word_at(place_of_child(cell, k));
                let there = place_of_child(copy, k);
                if names_cell(child) {
                    let inner = 8 * key + u64::from(k);
                    copy_below(from, child, inner, words, there, points, parts)?;
                } else {
                    words[there] = child;
                }
            }
        }
    }
    Ok(())
}

/// The place of the word of each part's cube, in turn. The cells above the parts' cubes are made.
pub fn make_places(
    alloc: Global,
    words: &mut Vec<u64>,
    points: &Points,
    parts: &[Octree],
) -> Result<Vec<usize>, OutOfMemory>
    requires parts { AreParts points.now parts.now }
    requires growing { IsGrowing points.now parts.now words.old.items }
    requires bare { (n : ℕ) → HasBody words.old.items n → ⊥ }
    requires none { cells_in words.old.items ≡ 0 }
    ensures { IfOk result (λ places. ArePlaced points.now parts.now words.new.items places.items (length parts.now)) }
{
    let mut places: Vec<usize> = Vec::with_capacity(alloc, parts.len())?;
    for part in parts {
        let _rule = part.held();
        let place = place_below(words, part.base(), points, parts)?;
        places.push(place)?;
    }
    Ok(places)
}

/// How many words the used cells of the parts have, where a number tells it. Nothing but time depends
/// on it.
fn words_of_parts(parts: &[Octree]) -> usize {
    let mut count: usize = 0;
    for part in parts {
        count = count.saturating_add(CELL_WORDS * part.used() as usize);
    }
    count
}

/// Copies each part to its place. The room for all of them is taken before.
pub fn copy_parts(
    words: &mut Vec<u64>,
    places: &[usize],
    points: &Points,
    parts: &[Octree],
) -> Result<(), OutOfMemory>
    requires parts { AreParts points.now parts.now }
    requires placed { ArePlaced points.now parts.now words.old.items places.now (length parts.now) }
    ensures { IfOk result (λ done. AreFilled points.now parts.now words.new.items places.now (cells_in words.old.items) (length parts.now)) }
{
    words.reserve(words_of_parts(parts))?;
    for (i, part) in parts.iter().enumerate() {
        copy_below(
            part,
            part.word_at(0),
            part.base(),
            words,
            places[i],
            points,
            parts,
        )?;
    }
    Ok(())
}
