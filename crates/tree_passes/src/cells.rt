//! Cells that a pass makes before it publishes them.

ghost use Rattle.std.specs.Prelude.{◌≡◌, ◌+◌, ◌-◌, ◌<◌, ◌≤◌, [], ◌∷◌, length, slice_index, slice_set, take};
ghost use Rattle.octant_code.specs.Points.{site_at, ArePoints};
ghost use Rattle.bh_model.specs.Bodies.{IsIn};
ghost use Rattle.tree_rule.specs.Words.{at_of, cell_word, child_place, lock_place};
ghost use Rattle.tree_rule.specs.Flat.{StandsFor};
ghost use Rattle.octree.specs.Chain.{ArePair, IsOneOf};
ghost use Rattle.tree_passes.specs.Counting.{times};
ghost use Rattle.tree_passes.specs.Making.{cells_between, HasCellWords, HasWritten, IsReady};

use crate::plays::{Read, Write};
use crate::rule::{Pass, Words};
use crate::view::{KEY_PART, ROW_WORDS};
use octant_code::{LEVELS, Point, Points, octant};
use tree_rule::{place_of_child, word_of_body, word_of_cell};

/// Sees to it that a word of a cell that the pass holds has a value: those of its children are 0 to 7,
/// and its key is 8. A word that has it already is not stored, since a load costs less than a store.
#[inline]
fn write_word(table: &Words, pass: &mut Pass, cell: u32, part: u32, value: u64)
    requires place { pass.old.table_id ≡ table.now.table_id }
    requires part { part < ROW_WORDS }
    requires inside { lock_place cell < table.now.table_id.words }
    requires held { 1 ≤ times cell pass.old.me.0.held }
    ensures pass { (pass.new.table_id ≡ pass.old.table_id) × (pass.new.me.1 ≡ pass.old.me.1) }
    ensures wrote { pass.new.me.0 ≡ record pass.old.me.0 { memory = slice_set pass.old.me.0.memory (child_place cell part) value } }
{
    if read_word(table, pass, cell, part) != value {
        table.store::<Write>(pass, place_of_child(cell, part), value);
    }
}

/// Loads a word of a cell that the pass holds.
#[inline]
pub fn read_word(table: &Words, pass: &mut Pass, cell: u32, part: u32) -> u64
    requires place { pass.old.table_id ≡ table.now.table_id }
    requires part { part < ROW_WORDS }
    requires inside { lock_place cell < table.now.table_id.words }
    requires held { 1 ≤ times cell pass.old.me.0.held }
    ensures pass { (pass.new.table_id ≡ pass.old.table_id) × (pass.new.me ≡ pass.old.me) }
    ensures value { result ≡ at_of pass.old.me.0.memory (child_place cell part) }
{
    table.load::<Read>(pass, place_of_child(cell, part))
}

/// Writes the key and the words of the children of a cell that the pass holds.
pub fn write_cell(table: &Words, pass: &mut Pass, cell: u32, children: &[u64; 8], key: u64)
    requires place { pass.old.table_id ≡ table.now.table_id }
    requires long { length pass.old.me.0.memory ≡ table.now.table_id.words }
    requires inside { lock_place cell < table.now.table_id.words }
    requires held { 1 ≤ times cell pass.old.me.0.held }
    ensures pass { (pass.new.table_id ≡ pass.old.table_id) × (pass.new.me.1 ≡ pass.old.me.1) }
    ensures wrote { HasWritten pass.old.me.0 pass.new.me.0 (cell ∷ []) }
    ensures words { HasCellWords pass.new.me.0.memory cell children.now key 8 }
{
    write_word(table, pass, cell, KEY_PART, key);
    for k in 0..KEY_PART {
        write_word(table, pass, cell, k, children[k as usize]);
    }
}

/// A cube by its key and its level.
#[derive(Clone, Copy, Drop)]
pub struct Cube {
    pub key: u64,
    pub level: u32,
}

/// How many cells part two points in a cube of a level that holds both.
pub fn cells_to_part(a: Point, b: Point, level: u32) -> usize
    requires { level ≤ LEVELS }
    ensures count { result ≡ cells_between a b level (LEVELS - level) }
    ensures few { result + level ≤ LEVELS }
{
    if level == LEVELS {
        0
    } else if octant(a, level) == octant(b, level) {
        1 + cells_to_part(a, b, level + 1)
    } else {
        1
    }
}

/// Makes the cells that part the bodies `x` and `n`, which lie in one cube, out of the first of these
/// cells on. The first is the top one; the result is how many they are. It takes no memory.
pub fn part_two(
    table: &Words,
    pass: &mut Pass,
    spare: &[u32],
    points: &Points,
    x: u32,
    n: u32,
    cube: Cube,
) -> usize
    requires place { pass.old.table_id ≡ table.now.table_id }
    requires ready { IsReady pass.old.me.0 table.now.table_id.words spare.now }
    requires room { cells_between (site_at points.now x) (site_at points.now n) cube.level (LEVELS - cube.level) ≤ length spare.now }
    requires rule { ArePoints points.now }
    requires pair { ArePair points.now x n cube.key cube.level }
    ensures pass { (pass.new.table_id ≡ pass.old.table_id) × (pass.new.me.1 ≡ pass.old.me.1) }
    ensures wrote { HasWritten pass.old.me.0 pass.new.me.0 (take result spare.now) }
    ensures count { result ≡ cells_between (site_at points.now x) (site_at points.now n) cube.level (LEVELS - cube.level) }
    ensures some { 1 ≤ result }
    ensures few { result + cube.level ≤ LEVELS }
    ensures stands { StandsFor (site_at points.now) (at_of pass.new.me.0.memory) (cell_word (slice_index spare.now 0)) cube.key (IsIn (take result spare.now)) (IsOneOf x n) }
{
    let cell = spare[0];
    let a = octant(points.at(x), cube.level);
    let b = octant(points.at(n), cube.level);
    let mut children = [0u64; 8];
    if a == b {
        let inner = Cube {
            key: 8 * cube.key + u64::from(b),
            level: cube.level + 1,
        };
        let used = part_two(table, pass, &spare[1..], points, x, n, inner);
        children[a as usize] = word_of_cell(spare[1]);
        write_cell(table, pass, cell, &children, cube.key);
        used + 1
    } else {
        children[a as usize] = word_of_body(x);
        children[b as usize] = word_of_body(n);
        write_cell(table, pass, cell, &children, cube.key);
        1
    }
}
