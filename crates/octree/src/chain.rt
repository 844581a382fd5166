//! The cells that part two bodies.

ghost use Rattle.std.specs.Prelude.{◌≡◌, ◌+◌, ◌-◌, ◌*◌, ◌/◌, ◌<◌, ◌≤◌, ℕ, length, vec_capacity};
ghost use Rattle.octant_code.specs.Points.{site_at, ArePoints};
ghost use Rattle.tree_rule.specs.Words.{at_of, cell_word};
ghost use Rattle.tree_rule.specs.Flat.{StandsFor};
ghost use Rattle.octree.specs.Stored.{cell_count_of, word_count};
ghost use Rattle.tree_rule.specs.Locks.{AreUnlocked};
ghost use Rattle.octree.specs.Chain.{ArePair, IsCellAdded, IsOneOf, IsTaken};

use octant_code::{LEVELS, Points, octant};
use tree_rule::{
    CELL_WORDS, FIRST_PLACE, MOST_CELLS, place_of_child, place_of_key, word_of_body, word_of_cell,
};

/// How many words so many cells have, with the three in front of them.
#[inline]
pub fn words_of_cells(cells: u32) -> usize
    ensures { result ≡ word_count cells }
{
    place_of_child(cells, 0)
}

/// How many cells have so many words, with the three in front of them.
#[inline]
pub fn cells_of_words(count: usize) -> u32
    requires front { FIRST_PLACE ≤ count }
    requires few { count ≤ word_count MOST_CELLS }
    ensures { result ≡ cell_count_of count }
{
    ((count - FIRST_PLACE) / CELL_WORDS) as u32
}

/// Appends the words of one more cell, which has a key and names nothing. It takes no memory.
#[inline]
pub fn add_cell(words: &mut Vec<u64>, cell: u32, key: u64)
    requires few { cell ≤ MOST_CELLS }
    requires len { length words.old.items ≡ word_count cell }
    requires room { word_count (cell + 1) ≤ vec_capacity words.old }
    requires unlocked { AreUnlocked words.old.items cell }
    ensures added { IsCellAdded words.old.items words.new.items cell key }
    ensures room { vec_capacity words.old ≤ vec_capacity words.new }
{
    match words.extend_from_slice(&[0; CELL_WORDS]) {
        Ok(()) => words[place_of_key(cell)] = key,
        Err(_) => unreachable!(),
    }
}

/// A cube by its key and its level.
#[derive(Clone, Copy, Drop)]
pub struct Cube {
    pub key: u64,
    pub level: u32,
}

/// Appends the cells that part the bodies `x` and `n`, which lie in one cube, to the words of the
/// used cells. The first of them is the top one; the result is how many cells are used then. It
/// takes no memory.
pub fn part_two(words: &mut Vec<u64>, used: u32, points: &Points, x: u32, n: u32, cube: Cube) -> u32
    requires few { used + (LEVELS - cube.level) ≤ MOST_CELLS }
    requires len { length words.old.items ≡ word_count used }
    requires room { word_count (used + (LEVELS - cube.level)) ≤ vec_capacity words.old }
    requires unlocked { AreUnlocked words.old.items used }
    requires rule { ArePoints points.now }
    requires pair { ArePair points.now x n cube.key cube.level }
    ensures len { length words.new.items ≡ word_count result }
    ensures room { vec_capacity words.old ≤ vec_capacity words.new }
    ensures kept { (i : ℕ) → i < word_count used → at_of words.new.items i ≡ at_of words.old.items i }
    ensures unlocked { AreUnlocked words.new.items result }
    ensures more { used < result }
    ensures few { result ≤ used + (LEVELS - cube.level) }
    ensures stands { StandsFor (site_at points.now) (at_of words.new.items) (cell_word used) cube.key (IsTaken used result) (IsOneOf x n) }
{
    let q = points.at(x);
    let p = points.at(n);
    let a = octant(q, cube.level);
    let b = octant(p, cube.level);
    add_cell(words, used, cube.key);
    if a == b {
        words[place_of_child(used, b)] = word_of_cell(used + 1);
        let inner = Cube {
            key: 8 * cube.key + u64::from(b),
            level: cube.level + 1,
        };
        part_two(words, used + 1, points, x, n, inner)
    } else {
        words[place_of_child(used, a)] = word_of_body(x);
        words[place_of_child(used, b)] = word_of_body(n);
        used + 1
    }
}
