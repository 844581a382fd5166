//! A shared octree, and the passes over it.

ghost use Rattle.std.specs.Prelude.{◌≡◌, ◌≢◌, ℕ, [], ◌∷◌, ◌+◌, ◌<◌, ◌≤◌, ◌++◌, length, IfNone, IfOk, IfSome, OnErr, OnOk};
ghost use Rattle.octant_code.specs.Points.{site_at};
ghost use Rattle.octant_code.specs.Space.{IsUnder};
ghost use Rattle.bh_model.specs.Blocks.{blocks};
ghost use Rattle.bh_model.specs.Trees.{order};
ghost use Rattle.octree.specs.Stored.{tree_of, IsCanonical};
ghost use Rattle.tree_rule.specs.Words.{body_word, HasBody};
ghost use Rattle.tree_passes.specs.Counting.{times, without, without_all};
ghost use Rattle.tree_passes.specs.Opening.{all_bodies};
ghost use Rattle.shared_tree.specs.Finding.{NamesNoneAt};
ghost use Rattle.shared_tree.specs.Merging.{others_among, HasAllBodies};
ghost use Rattle.shared_tree.specs.Seen.{seen_of, IsOf, PassState, SharedTree};
ghost use Rattle.tree_passes.specs.Turns.{HasFound, HasNone};

use crate::source::{insert_from, merge_from};
use octant_code::{OutOfMemory, Point, Steps};
use octree::Octree;
use shared_tree::{PassParts, TreeParts};
use std::marker::{Brand, Model};
use std::sync::Wait;
use std::sync::ledger::{Blank, Ledger};

/// A shared octree, into which any number of passes insert at the same time. Contracts see it as a
/// `SharedTree`: how its words are written, which table they stand in, and what it was opened with.
#[derive(Drop)]
pub struct LockedTree {
    pub(crate) parts: TreeParts,
}

impl Model for LockedTree {
    ghost use Rattle.std.specs.Prelude.{◌≡◌};
    ghost use Rattle.tree_passes.specs.declared.view.Writing.TheVariants.{UnderLocks};
    ghost use Rattle.shared_tree.specs.Seen.{SharedTree};

    ghost Value = { SharedTree };

    ghost view = { λ t. t.parts };

    ghost invariant = { λ t. t.parts.writing ≡ UnderLocks };
}

/// The right to put bodies into one shared octree. Contracts see it as a `PassState`: its tree's table
/// and points, its lists, its counts, and the word that it loaded last.
#[derive(Drop)]
pub struct LockedPass {
    pub(crate) parts: PassParts,
}

impl Model for LockedPass {
    ghost use Rattle.shared_tree.specs.Seen.{seen_of, PassState};

    ghost Value = { PassState };

    ghost view = { λ p. seen_of p.parts };
}

// The body at a point. No caller sees the steps, which take no time.
fn find_from<L: Ledger>(
    tree: &TreeParts,
    pass: &mut PassParts,
    p: Point,
    blank: Blank,
) -> Option<u32>
    requires name { blank.name ≡ L.name }
    requires parts { (blank.parts ≡ L.parts) × (0 < blank.parts) }
    requires tree { IsOf (seen_of pass.old) tree.now }
    ensures table { pass.new.table_id ≡ pass.old.table_id }
    ensures found { IfSome result (HasFound pass.old.view pass.new.view p) }
    ensures missed { IfNone result (HasNone pass.old.view pass.new.view p) }
{
    tree.find(pass, p, &mut Steps::<L>::new(blank))
}

impl LockedTree {
    /// Puts a body of the pass's todo list into the tree. It may wait for locks, and takes no memory.
    pub fn insert<R: Wait>(&self, rt: &R, pass: &mut LockedPass, n: u32)
        requires tree { IsOf pass.old self.now }
        requires todo { 1 ≤ times n pass.old.todo }
        ensures { pass.new ≡ record pass.old { todo = without n pass.old.todo; done = n ∷ pass.old.done; changes = pass.old.changes + 1; loads = pass.new.loads; last = pass.new.last } }
    {
        insert_from::<R, Brand>(rt, &self.parts, &mut pass.parts, n, Blank::new(1));
    }

    /// Merges a private octree of bodies of the pass's todo list into the tree. It may wait for locks, and
    /// takes no memory.
    ///
    /// It publishes at most as often as the octree's bodies have blocks against the other bodies of the
    /// opening, and once where the start is empty and all bodies are still to be put in by this pass.
    pub fn merge<R: Wait>(&self, rt: &R, pass: &mut LockedPass, part: &Octree)
        requires tree { IsOf pass.old self.now }
        requires base { part.now.base ≡ 1 }
        requires canonical { IsCanonical self.now.opening.sites part.now }
        requires todo { (x : ℕ) → HasBody part.now.words x → 1 ≤ times x pass.old.todo }
        ensures pass { pass.new ≡ record pass.old { todo = pass.new.todo; done = pass.new.done; changes = pass.new.changes; loads = pass.new.loads; last = pass.new.last } }
        ensures todo { (x : ℕ) → times x pass.new.todo + times x (order (tree_of part.now)) ≡ times x pass.old.todo }
        ensures done { (x : ℕ) → times x pass.new.done ≡ times x (order (tree_of part.now)) + times x pass.old.done }
        ensures most { pass.new.changes ≤ pass.old.changes + blocks (site_at self.now.opening.sites) (order (tree_of part.now)) (others_among (all_bodies self.now.opening) (order (tree_of part.now))) }
        ensures some { 1 ≤ length (order (tree_of part.now)) → pass.old.changes + 1 ≤ pass.new.changes }
        ensures once { HasAllBodies pass.old self.now.opening → 1 ≤ length (order (tree_of part.now)) → pass.new.changes ≡ pass.old.changes + 1 }
    {
        merge_from::<R, Brand>(rt, &self.parts, &mut pass.parts, part, Blank::new(1));
    }

    /// The body at a point. It waits for nobody, and takes no memory.
    ///
    /// A body that it answers is in the tree, and the pass has seen it from then on. None says that no
    /// body that the pass had done or seen has the point. Either answer rests on the word that this
    /// call loaded last.
    pub fn find(&self, pass: &mut LockedPass, p: Point) -> Option<u32>
        requires tree { IsOf pass.old self.now }
        ensures some { IfSome result (λ b. site_at self.now.opening.sites b ≡ p) }
        ensures seen { IfSome result (λ b. pass.new ≡ record pass.old { seen = b ∷ pass.old.seen; loads = pass.new.loads; last = pass.new.last }) }
        ensures none { IfNone result ((x : ℕ) → 1 ≤ times x pass.old.done + times x pass.old.seen → site_at self.now.opening.sites x ≢ p) }
        ensures stays { IfNone result (pass.new ≡ record pass.old { loads = pass.new.loads; last = pass.new.last }) }
        ensures loaded { pass.old.loads < pass.new.loads }
        ensures under { IsUnder pass.new.last.0 p }
        ensures names { IfSome result (λ b. pass.new.last.1 ≡ body_word b) }
        ensures names_none { IfNone result (NamesNoneAt self.now.opening.sites p pass.new.last.1) }
    {
        find_from::<Brand>(&self.parts, &mut pass.parts, p, Blank::new(1))
    }

    /// Splits bodies of the todo list off for a new pass, which has seen what the old one has seen or
    /// done.
    ///
    /// # Errors
    ///
    /// `OutOfMemory` for want of memory. Nothing changed then.
    pub fn split(&self, pass: &mut LockedPass, part: &[u32]) -> Result<LockedPass, OutOfMemory>
        requires tree { IsOf pass.old self.now }
        requires part { (x : ℕ) → times x part.now ≤ times x pass.old.todo }
        ensures refused { OnErr result (pass.new ≡ pass.old) }
        ensures kept { OnOk result (pass.new ≡ record pass.old { todo = without_all part.now pass.old.todo }) }
        ensures new { IfOk result (λ r. r ≡ record pass.old { todo = part.now; done = []; seen = pass.old.done ++ pass.old.seen; changes = 0; loads = 0; last = (0, 0) }) }
    {
        let parts = self.parts.split(&mut pass.parts, part)?;
        Ok(LockedPass { parts })
    }

    /// Takes in a pass whose todo list is empty. The cells that it has left are given up. It takes no
    /// memory.
    pub fn join(&self, into: &mut LockedPass, from: LockedPass)
        requires tree { IsOf into.old self.now × IsOf from self.now }
        requires empty { from.todo ≡ [] }
        ensures { into.new ≡ record into.old { done = into.old.done ++ from.done; seen = into.old.seen ++ from.seen; changes = into.old.changes + from.changes } }
    {
        self.parts.join(&mut into.parts, from.parts);
    }
}
