//! The test of a small table: whether its published words name exactly the cells and the bodies of
//! two lists. It goes over the lists again and again and keeps nothing.

ghost use Rattle.std.specs.Prelude.{◌≡◌, ◌<◌, ◌↔◌, ℕ, [], All, IsTrue, length};
ghost use Rattle.octant_code.specs.Space.{IsKey};
ghost use Rattle.octant_code.specs.Points.{site_at};
ghost use Rattle.bh_model.specs.Bodies.{IsIn, NoneTwice, HasMoreUnder};
ghost use Rattle.tree_rule.specs.Words.{at_of, body_word, key_place};
ghost use Rattle.tree_rule.specs.Standing.{IsCellKey, WordsNameExactly};
ghost use Rattle.tree_rule.specs.Tested.{ChildrenNameRightly, HasOtherUnder, HasOwnKey, IsChildWord, IsNamedSomewhere, IsRightCell, NamesBodyUnder, NamesCellOf, NamesRightly};

use crate::words::{place_of_child, place_of_key, word_of_body, word_of_cell};
use octant_code::{LEVELS, Points, key_has};

// Whether a number stands in a list.
fn is_in(list: &[u32], n: u32) -> bool
    ensures { IsTrue result ↔ IsIn list.now n }
{
    for x in list {
        if *x == n {
            return true;
        }
    }
    false
}

// Whether no number stands twice in a list.
fn none_twice(list: &[u32]) -> bool
    ensures { IsTrue result ↔ NoneTwice list.now }
{
    for i in 0..list.len() {
        if is_in(&list[i + 1..], list[i]) {
            return false;
        }
    }
    true
}

// Whether each number of a list is below a number.
fn are_below(list: &[u32], most: u32) -> bool
    ensures { IsTrue result ↔ All (λ n. n < most) list.now }
{
    for x in list {
        if *x >= most {
            return false;
        }
    }
    true
}

// The word at a place, or 0 past the end.
fn word_at(words: &[u64], place: usize) -> u64
    ensures { result ≡ at_of words.now place }
{
    if place < words.len() { words[place] } else { 0 }
}

// The word at the place of a cell's key.
fn key_word(words: &[u64], c: u32) -> u64
    ensures { result ≡ at_of words.now (key_place c) }
{
    word_at(words, place_of_key(c))
}

// Whether a number is the key of a cube of a level 0 to 20.
fn is_cell_key(key: u64) -> bool
    ensures { IsTrue result ↔ IsCellKey key }
{
    let mut low: u64 = 1;
    for i in 0..LEVELS {
        if key < low {
            return false;
        }
        if key < 2 * low {
            return true;
        }
        low *= 8;
    }
    false
}

// Whether no other cell of a list has the key of a cell.
fn has_own_key(words: &[u64], cells: &[u32], c: u32) -> bool
    ensures { IsTrue result ↔ HasOwnKey (at_of words.now) cells.now c }
{
    let key = key_word(words, c);
    for d in cells {
        if *d != c && key_word(words, *d) == key {
            return false;
        }
    }
    true
}

// Whether a body of a list other than `one` lies under a key.
fn has_other_under(points: &Points, bodies: &[u32], key: u64, one: u32) -> bool
    requires known { All (λ n. n < length points.now) bodies.now }
    requires key { IsKey key }
    ensures { IsTrue result ↔ HasOtherUnder (site_at points.now) bodies.now key one }
{
    for x in bodies {
        if *x != one && key_has(key, points.at(*x)) {
            return true;
        }
    }
    false
}

// Whether more bodies of a list lie under a key than a leaf holds, which is one: the first that
// does, and another.
fn has_more_under(points: &Points, bodies: &[u32], key: u64) -> bool
    requires known { All (λ n. n < length points.now) bodies.now }
    requires key { IsKey key }
    ensures { IsTrue result ↔ HasMoreUnder (site_at points.now) bodies.now key }
{
    for x in bodies {
        if key_has(key, points.at(*x)) {
            return has_other_under(points, bodies, key, *x);
        }
    }
    false
}

// Whether some child word of a cell is `w`.
fn is_child_word(words: &[u64], c: u32, w: u64) -> bool
    ensures { IsTrue result ↔ IsChildWord (at_of words.now) c w }
{
    for k in 0..8 {
        if word_at(words, place_of_child(c, k)) == w {
            return true;
        }
    }
    false
}

// Whether some published word is `w`.
fn is_named(words: &[u64], cells: &[u32], w: u64) -> bool
    ensures { IsTrue result ↔ IsNamedSomewhere (at_of words.now) cells.now w }
{
    if word_at(words, 0) == w {
        return true;
    }
    for c in cells {
        if is_child_word(words, *c, w) {
            return true;
        }
    }
    false
}

// Whether a word names a cell of a list that has a key.
fn is_cell_of(words: &[u64], cells: &[u32], key: u64, w: u64) -> bool
    ensures { IsTrue result ↔ NamesCellOf (at_of words.now) cells.now key w }
{
    for c in cells {
        if word_of_cell(*c) == w {
            return key_word(words, *c) == key;
        }
    }
    false
}

// Whether a word names a body of a list that lies under a key.
fn is_body_under(points: &Points, bodies: &[u32], key: u64, w: u64) -> bool
    requires known { All (λ n. n < length points.now) bodies.now }
    requires key { IsKey key }
    ensures { IsTrue result ↔ NamesBodyUnder (site_at points.now) bodies.now key w }
{
    for x in bodies {
        if word_of_body(*x) == w {
            return key_has(key, points.at(*x));
        }
    }
    false
}

// Whether the word of a key's cube names nothing, a body of the cube, or a cell of the key.
fn names_rightly(
    points: &Points,
    words: &[u64],
    cells: &[u32],
    bodies: &[u32],
    key: u64,
    w: u64,
) -> bool
    requires known { All (λ n. n < length points.now) bodies.now }
    requires key { IsKey key }
    ensures { IsTrue result ↔ NamesRightly (site_at points.now) (at_of words.now) cells.now bodies.now key w }
{
    w == 0 || is_body_under(points, bodies, key, w) || is_cell_of(words, cells, key, w)
}

// Whether each child word of a cell names rightly.
fn children_name_rightly(
    points: &Points,
    words: &[u64],
    cells: &[u32],
    bodies: &[u32],
    c: u32,
) -> bool
    requires known { All (λ n. n < length points.now) bodies.now }
    requires key { IsCellKey (at_of words.now (key_place c)) }
    ensures { IsTrue result ↔ ChildrenNameRightly (site_at points.now) (at_of words.now) cells.now bodies.now c }
{
    let first = 8 * key_word(words, c);
    for k in 0..8 {
        let w = word_at(words, place_of_child(c, k));
        if !names_rightly(points, words, cells, bodies, first + k as u64, w) {
            return false;
        }
    }
    true
}

// Whether all is right with a cell: its key, the bodies under it, its name and its child words.
fn is_right_cell(points: &Points, words: &[u64], cells: &[u32], bodies: &[u32], c: u32) -> bool
    requires known { All (λ n. n < length points.now) bodies.now }
    ensures { IsTrue result ↔ IsRightCell (site_at points.now) (at_of words.now) cells.now bodies.now c }
{
    let key = key_word(words, c);
    if !is_cell_key(key) {
        return false;
    }
    has_own_key(words, cells, c)
        && has_more_under(points, bodies, key)
        && is_named(words, cells, word_of_cell(c))
        && children_name_rightly(points, words, cells, bodies, c)
}

// Whether each cell of the list is right.
fn are_right_cells(points: &Points, words: &[u64], cells: &[u32], bodies: &[u32]) -> bool
    requires known { All (λ n. n < length points.now) bodies.now }
    ensures { IsTrue result ↔ ((c : ℕ) → IsIn cells.now c → IsRightCell (site_at points.now) (at_of words.now) cells.now bodies.now c) }
{
    for c in cells {
        if !is_right_cell(points, words, cells, bodies, *c) {
            return false;
        }
    }
    true
}

// Whether each body of the list is named.
fn are_named(words: &[u64], cells: &[u32], bodies: &[u32]) -> bool
    ensures { IsTrue result ↔ ((n : ℕ) → IsIn bodies.now n → IsNamedSomewhere (at_of words.now) cells.now (body_word n)) }
{
    for x in bodies {
        if !is_named(words, cells, word_of_body(*x)) {
            return false;
        }
    }
    true
}

/// Whether each number of `bodies` is that of a point, and the published words of a table name
/// exactly the cells and the bodies of the two lists.
pub fn words_stand(points: &Points, words: &[u64], cells: &[u32], bodies: &[u32]) -> bool
    ensures { IsTrue result ↔ (All (λ n. n < length points.now) bodies.now × WordsNameExactly points.now words.now 0 1 cells.now [] bodies.now) }
{
    if !are_below(bodies, points.len()) {
        return false;
    }
    if !none_twice(cells) {
        return false;
    }
    let root = word_at(words, 0);
    if !names_rightly(points, words, cells, bodies, 1, root) {
        return false;
    }
    if !are_right_cells(points, words, cells, bodies) {
        return false;
    }
    are_named(words, cells, bodies)
}
