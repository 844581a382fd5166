//! Insertion.

ghost use Rattle.std.specs.Prelude.{◌≡◌, [], ◌+◌, ◌<◌, ◌≤◌, length, take};
ghost use Rattle.octant_code.specs.Space.{key_of};
ghost use Rattle.octant_code.specs.Points.{site_at};
ghost use Rattle.octree.specs.Stored.{word_count};
ghost use Rattle.tree_passes.specs.Counting.{times};
ghost use Rattle.tree_passes.specs.Making.{IsReady};
ghost use Rattle.tree_passes.specs.Turns.{IsThere};
ghost use Rattle.tree_rule.specs.declared.words.TheConstants.{CELLS_OF_ONE, MOST_CELLS, POOL_PLACE};
ghost use Rattle.shared_tree.specs.Inserting.{IsAt, IsPutIn, LeadsTo};

use crate::publisher::{Batched, Publisher, Spot, publish};
use octant_code::{LEVELS, Point, Points, Steps, key_at, octant};
use std::sync::ledger::Ledger;
use tree_passes::{Cube, Pass, Words, load, part_two};
use tree_rule::{
    Named, ROOT_LOCK, named_by, place_of_child, place_of_lock, word_of_body, word_of_cell,
};

/// What a visit of a published word leads to: the body is in, with so many of the spare cells, or the
/// way goes on below a cell.
#[derive(Clone, Copy, Drop)]
pub enum Turn {
    Done(usize),
    Below(u32),
}

/// Puts the body over body `x`, which the word named when it was looked at, with as many of these cells
/// as part the two. Where the word names a cell by now the spare cells stay with the pass.
fn put_over<P: Publisher, L: Ledger>(
    publisher: &P,
    table: &Words,
    pass: &mut Pass,
    spare: &[u32],
    points: &Points,
    x: u32,
    n: u32,
    spot: Spot,
    steps: &mut Steps<L>,
) -> Turn
    requires writing { table.now.key.writing ≡ P.writing }
    requires place { pass.old.table_id ≡ table.now.table_id }
    requires at { IsAt pass.old.me.0 table.now.table_id.words points.now n spot }
    requires there { IsThere pass.old.me.0 spot.word (key_of (site_at points.now n) spot.level) x }
    requires ready { IsReady pass.old.me.0 table.now.table_id.words spare.now }
    requires stock { CELLS_OF_ONE ≤ length spare.now }
    ensures pass { (pass.new.table_id ≡ pass.old.table_id) × (pass.new.me.1 ≡ pass.old.me.1) }
    ensures no_lock { (pass.new.me.0.locks ≡ []) × (pass.new.me.0.under ≡ []) }
    ensures turn { LeadsTo pass.old.me.0 pass.new.me.0 n spare.now (key_of (site_at points.now n) spot.level) result }
    ensures steps { steps.new ≡ steps.old + 1 }
{
    let cube = Cube {
        key: key_at(points.at(n), spot.level),
        level: spot.level,
    };
    let used = part_two(table, pass, spare, points, x, n, cube);
    let top = word_of_cell(spare[0]);
    let old = word_of_body(x);
    let cells = &spare[..used];
    let found = publish(
        publisher,
        table,
        pass,
        spot,
        old,
        top,
        cells,
        Batched::These(&[n]),
        steps,
    );
    if found == old {
        return Turn::Done(used);
    }
    match named_by(found) {
        Named::Cell(cell) => Turn::Below(cell),
        _ => unreachable!(),
    }
}

/// Puts the body's word where the word was empty when it was looked at.
fn put_alone<P: Publisher, L: Ledger>(
    publisher: &P,
    table: &Words,
    pass: &mut Pass,
    spare: &[u32],
    points: &Points,
    n: u32,
    spot: Spot,
    steps: &mut Steps<L>,
) -> Turn
    requires writing { table.now.key.writing ≡ P.writing }
    requires place { pass.old.table_id ≡ table.now.table_id }
    requires at { IsAt pass.old.me.0 table.now.table_id.words points.now n spot }
    requires ready { IsReady pass.old.me.0 table.now.table_id.words spare.now }
    requires stock { CELLS_OF_ONE ≤ length spare.now }
    ensures pass { (pass.new.table_id ≡ pass.old.table_id) × (pass.new.me.1 ≡ pass.old.me.1) }
    ensures no_lock { (pass.new.me.0.locks ≡ []) × (pass.new.me.0.under ≡ []) }
    ensures turn { LeadsTo pass.old.me.0 pass.new.me.0 n spare.now (key_of (site_at points.now n) spot.level) result }
    ensures steps { steps.new ≤ steps.old + 2 }
{
    let found = publish(
        publisher,
        table,
        pass,
        spot,
        0,
        word_of_body(n),
        &[],
        Batched::These(&[n]),
        steps,
    );
    match named_by(found) {
        Named::Nothing => Turn::Done(0),
        Named::Body(x) => put_over(publisher, table, pass, spare, points, x, n, spot, steps),
        Named::Cell(cell) => Turn::Below(cell),
    }
}

/// Visits a published word. It is looked at three times at most: an empty word may name a body at the
/// second look, and a word that named a body then names a cell from then on.
#[inline]
fn visit<P: Publisher, L: Ledger>(
    publisher: &P,
    table: &Words,
    pass: &mut Pass,
    spare: &[u32],
    points: &Points,
    n: u32,
    spot: Spot,
    steps: &mut Steps<L>,
) -> Turn
    requires writing { table.now.key.writing ≡ P.writing }
    requires place { pass.old.table_id ≡ table.now.table_id }
    requires at { IsAt pass.old.me.0 table.now.table_id.words points.now n spot }
    requires ready { IsReady pass.old.me.0 table.now.table_id.words spare.now }
    requires stock { CELLS_OF_ONE ≤ length spare.now }
    ensures pass { (pass.new.table_id ≡ pass.old.table_id) × (pass.new.me.1 ≡ pass.old.me.1) }
    ensures no_lock { (pass.new.me.0.locks ≡ []) × (pass.new.me.0.under ≡ []) }
    ensures turn { LeadsTo pass.old.me.0 pass.new.me.0 n spare.now (key_of (site_at points.now n) spot.level) result }
    ensures steps { steps.new ≤ steps.old + 3 }
{
    match named_by(load(table, pass, spot.word, points.at(n), steps)) {
        Named::Nothing => put_alone(publisher, table, pass, spare, points, n, spot, steps),
        Named::Body(x) => put_over(publisher, table, pass, spare, points, x, n, spot, steps),
        Named::Cell(cell) => Turn::Below(cell),
    }
}

/// Inserts a body of the todo list, by at most 66 steps: three for each of 22 words. Returns how many
/// of the spare cells it took, from the front.
pub fn insert<P: Publisher, L: Ledger>(
    publisher: &P,
    table: &Words,
    pass: &mut Pass,
    spare: &[u32],
    points: &Points,
    n: u32,
    steps: &mut Steps<L>,
) -> usize
    requires writing { table.now.key.writing ≡ P.writing }
    requires place { pass.old.table_id ≡ table.now.table_id }
    requires some { POOL_PLACE < table.now.table_id.words }
    requires few { table.now.table_id.words ≤ word_count MOST_CELLS }
    requires points { pass.old.me.0.points ≡ points.now }
    requires no_lock { (pass.old.me.0.locks ≡ []) × (pass.old.me.0.under ≡ []) }
    requires n_in { n < length points.now }
    requires todo { 1 ≤ times n pass.old.me.0.todo }
    requires ready { IsReady pass.old.me.0 table.now.table_id.words spare.now }
    requires stock { CELLS_OF_ONE ≤ length spare.now }
    ensures pass { (pass.new.table_id ≡ pass.old.table_id) × (pass.new.me.1 ≡ pass.old.me.1) }
    ensures no_lock { (pass.new.me.0.locks ≡ []) × (pass.new.me.0.under ≡ []) }
    ensures few { result ≤ length spare.now }
    ensures done { IsPutIn pass.old.me.0 pass.new.me.0 n (take result spare.now) }
    ensures steps { steps.new ≤ steps.old + 66 }
{
    let _rule = points.len();
    let p = points.at(n);
    let mut spot = Spot {
        word: 0,
        lock: ROOT_LOCK,
        level: 0,
    };
    for level in 0..LEVELS + 1 {
        match visit(publisher, table, pass, spare, points, n, spot, steps) {
            Turn::Done(used) => return used,
            Turn::Below(cell) => {
                spot = Spot {
                    word: place_of_child(cell, octant(p, level)),
                    lock: place_of_lock(cell),
                    level: level + 1,
                };
            }
        }
    }
    unreachable!()
}
