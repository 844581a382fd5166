//! How a pass puts bodies in with cells of the shared pool, or of its region.

ghost use Rattle.std.specs.Prelude.{◌≡◌, ℕ, ◌∷◌, ◌+◌, ◌<◌, ◌≤◌, length};
ghost use Rattle.octant_code.specs.Points.{site_at};
ghost use Rattle.bh_model.specs.Blocks.{blocks};
ghost use Rattle.bh_model.specs.Trees.{order};
ghost use Rattle.octree.specs.Stored.{tree_of, IsCanonical};
ghost use Rattle.tree_rule.specs.Words.{HasBody};
ghost use Rattle.tree_passes.specs.declared.view.Writing.TheVariants.{UnderLocks};
ghost use Rattle.tree_passes.specs.Counting.{times, without};
ghost use Rattle.tree_passes.specs.Opening.{all_bodies};
ghost use Rattle.shared_tree.specs.Merging.{others_among, HasAllBodies};
ghost use Rattle.shared_tree.specs.Seen.{seen_of, IsOf};

use crate::locking::Locking;
use octant_code::Steps;
use octree::Octree;
use shared_tree::{PassParts, TreeParts};
use std::sync::Wait;
use std::sync::ledger::{Blank, Ledger};

/// Inserts a body of the todo list. No caller sees the steps, which take no time.
pub fn insert_from<R: Wait, L: Ledger>(
    rt: &R,
    tree: &TreeParts,
    pass: &mut PassParts,
    n: u32,
    blank: Blank,
)
    requires name { blank.name ≡ L.name }
    requires parts { (blank.parts ≡ L.parts) × (0 < blank.parts) }
    requires locks { tree.now.writing ≡ UnderLocks }
    requires tree { IsOf (seen_of pass.old) tree.now }
    requires todo { 1 ≤ times n pass.old.view.todo }
    ensures put { seen_of pass.new ≡ record (seen_of pass.old) { todo = without n pass.old.view.todo; done = n ∷ pass.old.view.done; changes = pass.old.view.changes + 1; loads = pass.new.view.loads; last = pass.new.view.last } }
{
    tree.fill_up(pass, 1);
    tree.insert(&Locking { rt }, pass, n, &mut Steps::<L>::new(blank));
}

/// Merges a private octree of bodies of the todo list. No caller sees the steps, which take no time.
pub fn merge_from<R: Wait, L: Ledger>(
    rt: &R,
    tree: &TreeParts,
    pass: &mut PassParts,
    part: &Octree,
    blank: Blank,
)
    requires name { blank.name ≡ L.name }
    requires parts { (blank.parts ≡ L.parts) × (0 < blank.parts) }
    requires locks { tree.now.writing ≡ UnderLocks }
    requires tree { IsOf (seen_of pass.old) tree.now }
    requires base { part.now.base ≡ 1 }
    requires canonical { IsCanonical tree.now.opening.sites part.now }
    requires todo { (x : ℕ) → HasBody part.now.words x → 1 ≤ times x pass.old.view.todo }
    ensures stays { seen_of pass.new ≡ record (seen_of pass.old) { todo = pass.new.view.todo; done = pass.new.view.done; changes = pass.new.view.changes; loads = pass.new.view.loads; last = pass.new.view.last } }
    ensures todo { (x : ℕ) → times x pass.new.view.todo + times x (order (tree_of part.now)) ≡ times x pass.old.view.todo }
    ensures done { (x : ℕ) → times x pass.new.view.done ≡ times x (order (tree_of part.now)) + times x pass.old.view.done }
    ensures most { pass.new.view.changes ≤ pass.old.view.changes + blocks (site_at tree.now.opening.sites) (order (tree_of part.now)) (others_among (all_bodies tree.now.opening) (order (tree_of part.now))) }
    ensures some { 1 ≤ length (order (tree_of part.now)) → pass.old.view.changes + 1 ≤ pass.new.view.changes }
    ensures once { HasAllBodies (seen_of pass.old) tree.now.opening → pass.new.view.changes ≤ pass.old.view.changes + 1 }
{
    tree.fill_up_for(pass, part);
    tree.merge(&Locking { rt }, pass, part, &mut Steps::<L>::new(blank));
}
