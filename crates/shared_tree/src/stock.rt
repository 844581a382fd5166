//! Cells that a pass draws from the shared pool, and keeps until it uses them.

ghost use Rattle.std.specs.Prelude.{◌≡◌, ◌+◌, ◌<◌, ◌≤◌, length};
ghost use Rattle.tree_rule.specs.declared.words.TheConstants.{CELLS_OF_ONE, MOST_CELLS, POOL_PLACE};
ghost use Rattle.tree_passes.specs.declared.view.Writing.TheVariants.{UnderLocks};
ghost use Rattle.tree_passes.specs.Making.{IsReady};
ghost use Rattle.shared_tree.specs.Seen.{HasDrawn};

use cell_pool::Region;
use octree::CellNo;
use tree_passes::{Pass, Words, draw_cell};
use tree_rule::CELLS_OF_ONE;

/// Draws cells until a region has so many. They are drawn 21 at a time, one after another, since passes
/// that are at work at the same time disturb each other at the pool word.
pub fn draw_up_to(table: &Words, pass: &mut Pass, region: &mut Region, wanted: usize)
    requires locks { table.now.key.writing ≡ UnderLocks }
    requires place { pass.old.table_id ≡ table.now.table_id }
    requires pool { POOL_PLACE < table.now.table_id.words }
    requires few { wanted ≤ MOST_CELLS }
    requires room { wanted ≤ region.old.room }
    requires drawable { region.old.room ≤ pass.old.me.0.quota + length region.old.cells }
    requires ready { IsReady pass.old.me.0 table.now.table_id.words region.old.cells }
    ensures pass { (pass.new.table_id ≡ pass.old.table_id) × (pass.new.me.1 ≡ pass.old.me.1) }
    ensures room { region.new.room ≡ region.old.room }
    ensures ready { IsReady pass.new.me.0 table.now.table_id.words region.new.cells }
    ensures drawn { HasDrawn pass.old.me.0 pass.new.me.0 region.old.cells region.new.cells }
    ensures enough { wanted ≤ length region.new.cells }
{
    let cells = region.len();
    let missing = wanted.saturating_sub(cells);
    let count = missing
        .next_multiple_of(CELLS_OF_ONE as usize)
        .min(region.room() - cells);
    for _ in 0..count {
        let cell = draw_cell(table, pass);
        region.give(CellNo(cell));
    }
}
