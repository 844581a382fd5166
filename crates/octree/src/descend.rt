//! The ways down to a word: to the one that names no cell and holds a point, and to that of a key.

ghost use Rattle.std.specs.Prelude.{◌≡◌, ◌+◌, ◌*◌, ◌<◌, ◌≤◌, ◌^◌, ℕ, length};
ghost use Rattle.octant_code.specs.Space.{key_of};
ghost use Rattle.octant_code.specs.Points.{site_at};
ghost use Rattle.tree_rule.specs.Words.{at_of, HasCell, HasBody, IsReached};
ghost use Rattle.tree_rule.specs.Flat.{IsPlaceOf, StandsFor};
ghost use Rattle.octree.specs.Chain.{NamesNoCell};
ghost use Rattle.octree.specs.Numbers.{IsWordOfKey};
ghost use Rattle.octree.specs.Stored.{word_count};

use octant_code::{LEVELS, Points, octant};
use tree_rule::{FIRST_PLACE, Named, named_by, place_of_child};

/// Where the way down to a point ends: the place of the word there, the level of its cube, and the
/// body that it names, if it names one.
#[derive(Clone, Copy, Drop)]
pub struct WayEnd {
    pub place: usize,
    pub level: u32,
    pub body: Option<u32>,
}

/// The word that names no cell and whose cube holds the point of `n`, below the root word, whose
/// cube is of the level `from`.
pub fn find_place(words: &Vec<u64>, from: u32, points: &Points, n: u32) -> WayEnd
    requires n_in { n < length points.now }
    requires shallow { from ≤ LEVELS }
    requires stands { StandsFor (site_at points.now) (at_of words.now.items) (at_of words.now.items 0) (key_of (site_at points.now n) from) (HasCell words.now.items) (HasBody words.now.items) }
    requires small { (w : ℕ) → IsReached (at_of words.now.items) (at_of words.now.items 0) w → w < 2 ^ 33 }
    requires first { FIRST_PLACE ≤ length words.now.items }
    requires room { (c : ℕ) → HasCell words.now.items c → word_count (c + 1) ≤ length words.now.items }
    ensures there { IsPlaceOf (at_of words.now.items) 0 (key_of (site_at points.now n) from) (HasCell words.now.items) (key_of (site_at points.now n) result.level) result.place }
    ensures named { NamesNoCell (at_of words.now.items result.place) result.body }
    ensures shallow { result.level ≤ LEVELS }
    ensures below { from ≤ result.level }
    ensures inside { result.place < length words.now.items }
{
    let p = points.at(n);
    let mut place: usize = 0;
    let mut level = from;
    'down: loop {
        match named_by(words[place]) {
            Named::Nothing => {
                return WayEnd {
                    place,
                    level,
                    body: None,
                };
            }
            Named::Body(x) => {
                return WayEnd {
                    place,
                    level,
                    body: Some(x),
                };
            }
            Named::Cell(cell) => {
                place = place_of_child(cell, octant(p, level));
                level += 1;
            }
        }
    }
}

/// The word of the cube of a key, if it is read on the way down from the root word, whose cube has
/// the key `base`. The word of the cube above tells it.
pub fn word_of_key(words: &Vec<u64>, base: u64, key: u64) -> Option<u64>
    requires positive { 1 ≤ base }
    requires small { (w : ℕ) → IsReached (at_of words.now.items) (at_of words.now.items 0) w → w < 2 ^ 33 }
    requires first { FIRST_PLACE ≤ length words.now.items }
    requires room { (c : ℕ) → HasCell words.now.items c → word_count (c + 1) ≤ length words.now.items }
    ensures { IsWordOfKey words.now.items base key result }
{
    if key == base {
        return Some(words[0]);
    }
    if key < base {
        return None;
    }
    let Some(above) = word_of_key(words, base, key / 8) else {
        return None;
    };
    let Named::Cell(cell) = named_by(above) else {
        return None;
    };
    Some(words[place_of_child(cell, (key % 8) as u32)])
}
