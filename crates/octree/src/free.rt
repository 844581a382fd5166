//! The cells of a tree that can't be reached.

ghost use Rattle.std.specs.Prelude.{◌≡◌, ◌<◌, ℕ, IfOk, length};
ghost use Rattle.octree.specs.Free.{AreMarked, AreUnmarked};
ghost use Rattle.octree.specs.Spot.{IsReachable};
ghost use Rattle.octree.specs.Subtree.{IsCellAt};

use crate::subtree::{CellAt, Subtree, Top};
use octant_code::OutOfMemory;
use std::alloc::Global;

#[cycle(marking)]
#[inline(always)]
/// Marks the cells of a subtree. It is compiled into the loop over the children of a cell, so that only
/// cells are called for.
pub fn mark_cells(at: Subtree, marks: &mut [bool])
    requires { (c : ℕ) → IsReachable at.octree c → c < length marks.old }
    ensures { AreMarked at.entry marks.old marks.new }
{
    match at.top() {
        Top::Nothing | Top::Body(_) => {}
        Top::Cell(cell) => mark_cell(cell, marks),
    }
}

#[cycle(marking)]
/// Marks a cell and those below it.
fn mark_cell(cell: CellAt, marks: &mut [bool])
    requires cell { IsCellAt cell cell }
    requires inside { (c : ℕ) → IsReachable cell.octree c → c < length marks.old }
    ensures { AreMarked cell.entry marks.old marks.new }
{
    marks[cell.number().0 as usize] = true;
    for k in 0..8 {
        mark_cells(cell.child(k), marks);
    }
}

/// The numbers that are not marked, the lowest first.
pub fn unmarked(alloc: Global, marks: &[bool], count: u32) -> Result<Vec<u32>, OutOfMemory>
    requires { length marks.now ≡ count }
    ensures { IfOk result (λ v. AreUnmarked marks.now count v.items) }
{
    let mut list = Vec::new(alloc);
    for c in 0..count {
        if !marks[c as usize] {
            list.push(c)?;
        }
    }
    Ok(list)
}
