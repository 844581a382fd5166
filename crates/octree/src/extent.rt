//! How large a tree is.

ghost use Rattle.std.specs.Prelude.{◌≡◌, ◌<◌, ◌+◌, ◌≤◌, ◌^◌};
ghost use Rattle.bh_model.specs.Trees.{body_levels_from, cell_count, greatest, height};
ghost use Rattle.octree.specs.Spot.{tree_under};
ghost use Rattle.octree.specs.Subtree.{IsCellAt};

use crate::subtree::{CellAt, Subtree, Top};
use tree_rule::MOST_CELLS;

/// How many cells a tree has, and how deep its bodies lie.
#[derive(Clone, Copy, Debug, PartialEq, Eq)]
pub struct Extent {
    /// How many cells can be reached.
    pub cells: u32,
    /// The greatest level of a word that names a body, counted from the root's word, which is of
    /// level 0; and 0 where the tree has no body.
    pub depth: u32,
}

#[cycle(extent)]
#[inline(always)]
#[tactic(auto, using(bh_model::proofs::Folds::count_steps, bh_model::proofs::Folds::depth_steps))]
/// The extent of a subtree whose own word is of a level. It is compiled into the loop over the
/// children of a cell, so that only cells are called for.
pub fn extent_of(at: Subtree, level: u32) -> Extent
    requires few { cell_count (tree_under at) ≤ MOST_CELLS }
    requires shallow { level + height (tree_under at) < 2 ^ 32 }
    ensures cells { result.cells ≡ cell_count (tree_under at.entry) }
    ensures depth { result.depth ≡ greatest (body_levels_from (tree_under at.entry) level) }
{
    match at.top() {
        Top::Nothing => Extent { cells: 0, depth: 0 },
        Top::Body(_) => Extent {
            cells: 0,
            depth: level,
        },
        Top::Cell(cell) => extent_of_cell(cell, level),
    }
}

#[cycle(extent)]
#[tactic(auto, using(bh_model::proofs::Folds::count_steps, bh_model::proofs::Folds::depth_steps))]
/// The extent of a cell whose own word is of a level.
fn extent_of_cell(cell: CellAt, level: u32) -> Extent
    requires cell { IsCellAt cell cell }
    requires few { cell_count (tree_under cell) ≤ MOST_CELLS }
    requires shallow { level + height (tree_under cell) < 2 ^ 32 }
    ensures cells { result.cells ≡ cell_count (tree_under cell.entry) }
    ensures depth { result.depth ≡ greatest (body_levels_from (tree_under cell.entry) level) }
{
    let mut cells = 1;
    let mut depth = 0u32;
    for k in 0..8 {
        let child = extent_of(cell.child(k), level + 1);
        cells += child.cells;
        depth = depth.max(child.depth);
    }
    Extent { cells, depth }
}
