//! Yards: where shared octrees without locks are opened and closed, and what was published is counted.

ghost use Rattle.std.specs.Prelude.{◌≡◌, ℕ, [], ◌<◌, length, IfOk};
ghost use Rattle.std.specs.Arc.{arc_value};
ghost use Rattle.bh_model.specs.Bodies.{IsIn, NoneTwice};
ghost use Rattle.tree_rule.specs.Words.{at_of, HasBody};
ghost use Rattle.octree.specs.Stored.{IsCanonical};
ghost use Rattle.tree_passes.specs.Counting.{times};
ghost use Rattle.tree_passes.specs.Opening.{all_bodies};
ghost use Rattle.shared_tree.specs.Ends.{IsTreeAtEnd};
ghost use Rattle.shared_tree.specs.Seen.{entrusted, risen, IsOf};

use crate::tree::{FreePass, FreeTree};
use octant_code::{OutOfMemory, Points};
use octree::Octree;
use shared_tree::{YardParts, deal_region};
use std::alloc::Global;
use std::marker::Model;
use std::sync::Arc;
use tree_passes::Writing;

/// A place where shared octrees without locks are opened and closed. It counts the bodies and the
/// publications of all trees that were closed; a count that would pass 2^64 - 1 stays there. Contracts
/// see it as `YardCounts`.
#[derive(Debug, Drop)]
pub struct FreeYard {
    parts: YardParts,
}

impl Model for FreeYard {
    ghost use Rattle.shared_tree.specs.Seen.{YardCounts};

    ghost Value = { YardCounts };

    ghost view = { λ y. y.parts };
}

impl FreeYard {
    /// A yard that has counted nothing.
    pub fn new() -> FreeYard
        ensures { result ≡ record { published = 0; changes = 0 } }
    {
        FreeYard {
            parts: YardParts::new(),
        }
    }

    /// How many bodies were put into the trees that were closed.
    pub fn published(&self) -> u64
        ensures { result ≡ self.now.published }
    {
        self.parts.published()
    }

    /// How many publications the passes made that were closed.
    pub fn changes(&self) -> u64
        ensures { result ≡ self.now.changes }
    {
        self.parts.changes()
    }

    /// Opens a canonical octree, in which each cell keeps its number, and gives the pass that is
    /// entrusted with all bodies that are to be put in.
    ///
    /// The cells of the start that can't be reached are handed out, and new ones until there are 21 for
    /// each body. The table takes 80 bytes for each cell that the start holds and each new one, and the
    /// yard keeps as many for the next tree. The octree at the end has room for as many.
    ///
    /// # Errors
    ///
    /// `OutOfMemory` for want of memory. The start is given up then.
    pub fn open(
        &mut self,
        alloc: Global,
        points: &Arc<Points>,
        start: Octree,
        todo: &[u32],
    ) -> Result<(FreeTree, FreePass), OutOfMemory>
        requires base { start.base ≡ 1 }
        requires canonical { IsCanonical (arc_value points.now) start }
        requires todo_once { NoneTwice todo.now }
        requires todo_in { (x : ℕ) → IsIn todo.now x → x < length (arc_value points.now) }
        requires todo_fresh { (x : ℕ) → IsIn todo.now x → HasBody start.words x → ⊥ }
        ensures yard { self.new ≡ self.old }
        ensures points { IfOk result (λ r. r.0.opening.sites ≡ arc_value points.now) }
        ensures words { IfOk result (λ r. (i : ℕ) → at_of r.0.opening.words i ≡ at_of start.words i) }
        ensures todo { IfOk result (λ r. r.0.opening.todo ≡ todo.now) }
        ensures pass { IfOk result (λ r. r.1 ≡ record { table_id = r.0.table_id; points = arc_value points.now; bodies = all_bodies r.0.opening; todo = todo.now; done = []; seen = []; changes = 0; loads = 0; last = (0, 0) }) }
    {
        let _rule = points.len();
        let deal = deal_region(alloc, &start, todo.len())?;
        let (tree, pass) = self
            .parts
            .open(alloc, Writing::ByExchange, points, start, todo, deal)?;
        Ok((FreeTree { parts: tree }, FreePass { parts: pass }))
    }

    /// Closes a tree with a pass that is entrusted with all that the tree was opened with, whatever is
    /// left in its todo list. It takes no memory.
    pub fn close(&mut self, tree: FreeTree, pass: FreePass) -> Octree
        requires pass { IsOf pass tree }
        requires all { (x : ℕ) → times x tree.opening.todo ≡ times x (entrusted pass) }
        ensures tree { IsTreeAtEnd tree.opening pass.done pass.seen result }
        ensures counts { self.new ≡ record { published = risen self.old.published (length pass.done); changes = risen self.old.changes pass.changes } }
    {
        self.parts.close(tree.parts, pass.parts)
    }
}
