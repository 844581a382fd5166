//! Yards: where shared octrees are opened and closed, and what was published is counted.

ghost use Rattle.std.specs.Prelude.{◌≡◌, ℕ, [], ◌+◌, ◌*◌, ◌<◌, ◌≤◌, length, IfOk};
ghost use Rattle.std.specs.Arc.{arc_value};
ghost use Rattle.octant_code.specs.declared.limits.TheConstants.{MOST_BODIES};
ghost use Rattle.bh_model.specs.Bodies.{IsIn, NoneTwice};
ghost use Rattle.bh_model.specs.Trees.{cell_count};
ghost use Rattle.tree_rule.specs.Words.{at_of, HasBody};
ghost use Rattle.tree_rule.specs.declared.words.TheConstants.{CELLS_OF_ONE, MOST_CELLS};
ghost use Rattle.octree.specs.Stored.{IsCanonical, tree_of};
ghost use Rattle.tree_passes.specs.Counting.{times};
ghost use Rattle.tree_passes.specs.Opening.{all_bodies};
ghost use Rattle.shared_tree.specs.Ends.{IsTreeAtEnd};
ghost use Rattle.shared_tree.specs.Seen.{entrusted, risen, IsOf};
ghost use Rattle.locked_tree.specs.Pools.{AreDealtOut, HasRoom};

use crate::tree::{LockedPass, LockedTree};
use octant_code::{OutOfMemory, Points};
use octree::Octree;
use shared_tree::{Deal, YardParts, deal_region};
use std::alloc::Global;
use std::marker::Model;
use std::sync::Arc;
use tree_passes::Writing;
use tree_rule::CELLS_OF_ONE;

/// Where passes take the cells from that they publish.
#[derive(Clone, Copy, Debug, PartialEq, Eq)]
pub enum Pool {
    /// From the pool word, one number after another.
    Shared,
    /// Each pass from a region of its own.
    Regions,
}

/// A place where shared octrees are opened and closed. It counts the bodies and the publications of
/// all trees that were closed; a count that would pass 2^64 - 1 stays there. Contracts see it as
/// `YardCounts`.
#[derive(Debug, Drop)]
pub struct LockedYard {
    parts: YardParts,
}

impl Model for LockedYard {
    ghost use Rattle.shared_tree.specs.Seen.{YardCounts};

    ghost Value = { YardCounts };

    ghost view = { λ y. y.parts };
}

// The deal for a start and so many bodies.
fn deal_out(alloc: Global, pool: Pool, start: &Octree, bodies: usize) -> Result<Deal, OutOfMemory>
    requires few { bodies ≤ MOST_BODIES }
    requires room { HasRoom pool start.now.held bodies }
    requires regions { cell_count (tree_of start.now) + CELLS_OF_ONE * bodies ≤ MOST_CELLS }
    ensures { IfOk result (λ d. AreDealtOut pool start.now bodies d.region.items d.cells d.pool d.quota) }
{
    match pool {
        Pool::Shared => {
            let held = start.held();
            let quota = CELLS_OF_ONE * bodies as u32;
            Ok(Deal {
                region: Vec::new(alloc),
                cells: held + quota,
                pool: u64::from(held),
                quota: u64::from(quota),
            })
        }
        Pool::Regions => deal_region(alloc, start, bodies),
    }
}

impl LockedYard {
    /// A yard that has counted nothing.
    pub fn new() -> LockedYard
        ensures { result ≡ record { published = 0; changes = 0 } }
    {
        LockedYard {
            parts: YardParts::new(),
        }
    }

    /// How many bodies were put into the trees that were closed.
    pub fn published(&self) -> u64
        ensures { result ≡ self.now.published }
    {
        self.parts.published()
    }

    /// How many publications the passes made that were closed.
    pub fn changes(&self) -> u64
        ensures { result ≡ self.now.changes }
    {
        self.parts.changes()
    }

    /// Opens a canonical octree, in which each cell keeps its number, and gives the pass that is
    /// entrusted with all bodies that are to be put in.
    ///
    /// With the shared pool the cells that the start holds and 21 for each body are together at most
    /// 1,376,256. With regions the cells of the start that can't be reached are handed out, and new ones
    /// until there are 21 for each body. The table takes 80 bytes for each cell that the start holds and
    /// each new one, and the yard keeps as many for the next tree. The octree at the end has room for as
    /// many.
    ///
    /// # Errors
    ///
    /// `OutOfMemory` for want of memory. The start is given up then.
    pub fn open(
        &mut self,
        alloc: Global,
        points: &Arc<Points>,
        start: Octree,
        todo: &[u32],
        pool: Pool,
    ) -> Result<(LockedTree, LockedPass), OutOfMemory>
        requires base { start.base ≡ 1 }
        requires canonical { IsCanonical (arc_value points.now) start }
        requires todo_once { NoneTwice todo.now }
        requires todo_in { (x : ℕ) → IsIn todo.now x → x < length (arc_value points.now) }
        requires todo_fresh { (x : ℕ) → IsIn todo.now x → HasBody start.words x → ⊥ }
        requires room { HasRoom pool start.held (length todo.now) }
        ensures yard { self.new ≡ self.old }
        ensures points { IfOk result (λ r. r.0.opening.sites ≡ arc_value points.now) }
        ensures words { IfOk result (λ r. (i : ℕ) → at_of r.0.opening.words i ≡ at_of start.words i) }
        ensures todo { IfOk result (λ r. r.0.opening.todo ≡ todo.now) }
        ensures pass { IfOk result (λ r. r.1 ≡ record { table_id = r.0.table_id; points = arc_value points.now; bodies = all_bodies r.0.opening; todo = todo.now; done = []; seen = []; changes = 0; loads = 0; last = (0, 0) }) }
    {
        let _rule = (points.len(), start.used());
        let deal = deal_out(alloc, pool, &start, todo.len())?;
        let (tree, parts) = self
            .parts
            .open(alloc, Writing::UnderLocks, points, start, todo, deal)?;
        Ok((LockedTree { parts: tree }, LockedPass { parts }))
    }

    /// Closes a tree with a pass that is entrusted with all that the tree was opened with, whatever is
    /// left in its todo list. It takes no memory.
    pub fn close(&mut self, tree: LockedTree, pass: LockedPass) -> Octree
        requires pass { IsOf pass tree }
        requires all { (x : ℕ) → times x tree.opening.todo ≡ times x (entrusted pass) }
        ensures tree { IsTreeAtEnd tree.opening pass.done pass.seen result }
        ensures counts { self.new ≡ record { published = risen self.old.published (length pass.done); changes = risen self.old.changes pass.changes } }
    {
        self.parts.close(tree.parts, pass.parts)
    }
}
