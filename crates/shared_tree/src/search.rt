//! The search of a point.

ghost use Rattle.std.specs.Prelude.{◌≡◌, ◌+◌, ◌<◌, ◌≤◌, IfNone, IfSome, length};
ghost use Rattle.octree.specs.Stored.{word_count};
ghost use Rattle.tree_rule.specs.declared.words.TheConstants.{MOST_CELLS};
ghost use Rattle.tree_passes.specs.Turns.{HasFound, HasNone};

use octant_code::{LEVELS, Point, Points, Steps, octant};
use std::sync::ledger::Ledger;
use tree_passes::{Pass, Words, load};
use tree_rule::{Named, named_by, place_of_child};

/// The body at a point, by at most 22 steps. None only where the pass has done or seen no body there.
pub fn find<L: Ledger>(
    table: &Words,
    pass: &mut Pass,
    points: &Points,
    p: Point,
    steps: &mut Steps<L>,
) -> Option<u32>
    requires place { pass.old.table_id ≡ table.now.table_id }
    requires some { 0 < table.now.table_id.words }
    requires few { table.now.table_id.words ≤ word_count MOST_CELLS }
    requires points { pass.old.me.0.points ≡ points.now }
    requires long { length pass.old.me.0.memory ≡ table.now.table_id.words }
    ensures pass { (pass.new.table_id ≡ pass.old.table_id) × (pass.new.me.1 ≡ pass.old.me.1) }
    ensures under { pass.new.me.0.under ≡ pass.old.me.0.under }
    ensures some { IfSome result (HasFound pass.old.me.0 pass.new.me.0 p) }
    ensures none { IfNone result (HasNone pass.old.me.0 pass.new.me.0 p) }
    ensures steps { steps.new ≤ steps.old + 22 }
{
    let _rule = points.len();
    let mut word = 0;
    for level in 0..LEVELS + 1 {
        match named_by(load(table, pass, word, p, steps)) {
            Named::Nothing => return None,
            Named::Body(body) => {
                if points.at(body) == p {
                    return Some(body);
                }
                return None;
            }
            Named::Cell(cell) => word = place_of_child(cell, octant(p, level)),
        }
    }
    unreachable!()
}
