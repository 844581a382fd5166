//! How a shared tree begins, and what its words are at the end.

ghost use Rattle.std.specs.Prelude.{◌≡◌, ℕ, [], ◌+◌, length, slice_set, IfOk};
ghost use Rattle.std.specs.Slots.{slots_items, slots_len, IsFull};
ghost use Rattle.tree_rule.specs.declared.words.TheConstants.{POOL_PLACE};
ghost use Rattle.tree_passes.specs.declared.view.Writing.TheVariants.{ByExchange, UnderLocks};
ghost use Rattle.tree_passes.specs.Counting.{times};
ghost use Rattle.tree_passes.specs.Opening.{fresh_view, opening_of};
ghost use Rattle.tree_passes.specs.Ends.{AreGivenOut, CanOpen, CanPool, IsClosed, NoneLocked};

use crate::rule::{Pass, TreeRule};
use crate::view::{Told, View, Writing};
use atomic_table::{Closed, Table};
use octant_code::{OutOfMemory, Points};
use std::alloc::Global;
use std::snapshot::Snapshot;
use tree_rule::POOL_PLACE;

/// A shared tree with the memory of its words.
pub type Tree = Table<(), View, Told, TreeRule, Global>;

/// A tree without locks that begins with the words of an octree, and the pass that is entrusted with
/// these bodies and has these cells.
pub fn open_free(
    alloc: Global,
    points: &Points,
    words: &Vec<u64>,
    todo: &Vec<u32>,
    held: &Vec<u32>,
) -> Result<(Tree, Pass), OutOfMemory>
    requires { CanOpen points.now words.now.items todo.now.items held.now.items }
    ensures writing { IfOk result (λ r. r.0.shared.key.writing ≡ ByExchange) }
    ensures opening { IfOk result (λ r. opening_of r.0.shared.key ≡ record { sites = points.now; words = words.now.items; todo = todo.now.items }) }
    ensures counts { IfOk result (λ r. (r.0.shared.table_id.words ≡ length words.now.items) × (r.0.shared.table_id.slots ≡ 0)) }
    ensures pass { IfOk result (λ r. (r.1.table_id ≡ r.0.shared.table_id) × (r.1.me ≡ (fresh_view (opening_of r.0.shared.key) held.now.items 0 todo.now.items, []))) }
{
    let told = Told {
        writing: Writing::ByExchange,
        points: Snapshot::of(points),
        words: Snapshot::of(words),
        todo: Snapshot::of(todo),
        held: Snapshot::of(held),
        quota: 0,
    };
    match Table::of_words(alloc, words, &told) {
        Ok(opened) => Ok(opened),
        Err(_) => Err(OutOfMemory),
    }
}

/// A tree with locks that begins with the words of an octree, in which the pool word is set, and the
/// pass that is entrusted with these bodies and has these cells and this quota.
pub fn open_locked(
    alloc: Global,
    points: &Points,
    words: &mut Vec<u64>,
    todo: &Vec<u32>,
    held: &Vec<u32>,
    pool: u64,
    quota: u64,
) -> Result<(Tree, Pass), OutOfMemory>
    requires octree { CanOpen points.now words.old.items todo.now.items held.now.items }
    requires pool { CanPool words.old.items held.now.items pool quota }
    ensures words { words.new.items ≡ slice_set words.old.items POOL_PLACE pool }
    ensures writing { IfOk result (λ r. r.0.shared.key.writing ≡ UnderLocks) }
    ensures opening { IfOk result (λ r. opening_of r.0.shared.key ≡ record { sites = points.now; words = words.old.items; todo = todo.now.items }) }
    ensures counts { IfOk result (λ r. (r.0.shared.table_id.words ≡ length words.old.items) × (r.0.shared.table_id.slots ≡ 0)) }
    ensures pass { IfOk result (λ r. (r.1.table_id ≡ r.0.shared.table_id) × (r.1.me ≡ (fresh_view (opening_of r.0.shared.key) held.now.items quota todo.now.items, []))) }
{
    let told = Told {
        writing: Writing::UnderLocks,
        points: Snapshot::of(points),
        words: Snapshot::of(words),
        todo: Snapshot::of(todo),
        held: Snapshot::of(held),
        quota,
    };
    words[POOL_PLACE] = pool;
    match Table::of_words(alloc, words, &told) {
        Ok(opened) => Ok(opened),
        Err(_) => Err(OutOfMemory),
    }
}

/// The words of a tree, once a pass has all that was entrusted.
pub fn close(tree: Tree, pass: Pass) -> Closed<(), Global>
    requires place { pass.table_id ≡ tree.shared.table_id }
    requires all { (x : ℕ) → times x (opening_of tree.shared.key).todo ≡ times x pass.me.0.todo + times x pass.me.0.done }
    ensures counts { (slots_len result.words ≡ tree.shared.table_id.words) × (slots_len result.slots ≡ tree.shared.table_id.slots) }
    ensures full { IsFull result.words }
    ensures closed { IsClosed (opening_of tree.shared.key) pass.me.0.done pass.me.0.seen (slots_items result.words) }
    ensures unlocked { tree.shared.key.writing ≡ ByExchange → NoneLocked (slots_items result.words) }
    ensures given { tree.shared.key.writing ≡ UnderLocks → AreGivenOut (slots_items result.words) }
{
    tree.close_with(pass)
}
