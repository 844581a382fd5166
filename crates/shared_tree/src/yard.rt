//! What yards count.

ghost use Rattle.std.specs.Prelude.{◌≡◌, ℕ, [], ◌+◌, ◌*◌, ◌<◌, ◌≤◌, length, IfOk};
ghost use Rattle.std.specs.Arc.{arc_value};
ghost use Rattle.bh_model.specs.Bodies.{IsIn, NoneTwice};
ghost use Rattle.tree_rule.specs.Words.{at_of, HasBody};
ghost use Rattle.tree_rule.specs.declared.words.TheConstants.{CELLS_OF_ONE};
ghost use Rattle.octree.specs.Stored.{IsCanonical};
ghost use Rattle.tree_passes.specs.declared.view.Writing.TheVariants.{ByExchange};
ghost use Rattle.tree_passes.specs.Opening.{all_bodies};
ghost use Rattle.tree_passes.specs.Counting.{times};
ghost use Rattle.shared_tree.specs.Ends.{IsTreeAtEnd, Serves};
ghost use Rattle.shared_tree.specs.Seen.{entrusted, risen, seen_of, IsOf};

use crate::copy::close_parts;
use crate::parts::{PassParts, TreeParts};
use crate::start::{Deal, open};
use octant_code::{OutOfMemory, Points};
use octree::Octree;
use std::alloc::Global;
use std::marker::Model;
use std::sync::Arc;
use tree_passes::Writing;

/// How many bodies were put into the trees that were closed, and how many publications their passes
/// made; a count that would pass 2^64 - 1 stays there. It keeps the zeros from which tables are opened,
/// so that a later tree of as many words writes none. Contracts see it as `YardCounts`.
#[derive(Debug, Drop)]
pub struct YardParts {
    published: u64,
    changes: u64,
    // none before the first tree
    zeros: Option<Vec<u64>>,
}

impl Model for YardParts {
    ghost use Rattle.std.specs.Prelude.{IfSome};
    ghost use Rattle.shared_tree.specs.Ends.{AreZeros};
    ghost use Rattle.shared_tree.specs.Seen.{YardCounts};

    ghost Value = { YardCounts };

    ghost view = { λ y. record { published = y.published; changes = y.changes } };

    ghost invariant = { λ y. IfSome y.zeros (λ v. AreZeros v.items) };
}

impl YardParts {
    /// Nothing was counted yet.
    pub fn new() -> YardParts
        ensures { result ≡ record { published = 0; changes = 0 } }
    {
        YardParts {
            published: 0,
            changes: 0,
            zeros: None,
        }
    }

    /// How many bodies were put into the trees that were closed.
    pub fn published(&self) -> u64
        ensures { result ≡ self.now.published }
    {
        self.published
    }

    /// How many publications the passes made that were closed.
    pub fn changes(&self) -> u64
        ensures { result ≡ self.now.changes }
    {
        self.changes
    }

    /// Opens a tree with a start and bodies that are to be put in, whose cells are dealt out so, and the
    /// pass that is entrusted with them.
    ///
    /// # Errors
    ///
    /// `OutOfMemory` for want of memory. The start is given up then.
    pub fn open(
        &mut self,
        alloc: Global,
        writing: Writing,
        points: &Arc<Points>,
        start: Octree,
        todo: &[u32],
        deal: Deal,
    ) -> Result<(TreeParts, PassParts), OutOfMemory>
        requires base { start.base ≡ 1 }
        requires canonical { IsCanonical (arc_value points.now) start }
        requires todo_once { NoneTwice todo.now }
        requires todo_in { (x : ℕ) → IsIn todo.now x → x < length (arc_value points.now) }
        requires todo_fresh { (x : ℕ) → IsIn todo.now x → HasBody start.words x → ⊥ }
        requires deal { Serves start deal.region.items deal.cells deal.pool deal.quota }
        requires quota { writing ≡ ByExchange → deal.quota ≡ 0 }
        requires enough { CELLS_OF_ONE * length todo.now ≤ length deal.region.items + deal.quota }
        ensures yard { self.new ≡ self.old }
        ensures writing { IfOk result (λ r. r.0.writing ≡ writing) }
        ensures points { IfOk result (λ r. r.0.opening.sites ≡ arc_value points.now) }
        ensures words { IfOk result (λ r. (i : ℕ) → at_of r.0.opening.words i ≡ at_of start.words i) }
        ensures todo { IfOk result (λ r. r.0.opening.todo ≡ todo.now) }
        ensures pass { IfOk result (λ r. seen_of r.1 ≡ record { table_id = r.0.table_id; points = arc_value points.now; bodies = all_bodies r.0.opening; todo = todo.now; done = []; seen = []; changes = 0; loads = 0; last = (0, 0) }) }
        ensures quota { IfOk result (λ r. r.1.view.quota ≡ deal.quota) }
    {
        let mut zeros = match self.zeros.take() {
            Some(zeros) => zeros,
            None => Vec::new(alloc),
        };
        let opened = open(alloc, writing, points, start, todo, deal, &mut zeros);
        self.zeros = Some(zeros);
        opened
    }

    /// Closes a tree with a pass that is entrusted with all that the tree was opened with, whatever is
    /// left in its todo list. It takes no memory.
    pub fn close(&mut self, tree: TreeParts, pass: PassParts) -> Octree
        requires pass { IsOf (seen_of pass) tree }
        requires all { (x : ℕ) → times x tree.opening.todo ≡ times x (entrusted (seen_of pass)) }
        ensures tree { IsTreeAtEnd tree.opening pass.view.done pass.view.seen result }
        ensures counts { self.new ≡ record { published = risen self.old.published (length pass.view.done); changes = risen self.old.changes pass.view.changes } }
    {
        let (published, changes) = pass.counts();
        self.published = self.published.saturating_add(published);
        self.changes = self.changes.saturating_add(changes);
        close_parts(tree, pass)
    }
}
