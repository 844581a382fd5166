//! The steps of a tree whose published words are written under locks: a lock is tried and given up,
//! published words are loaded and stored under it, and cells are drawn from the shared pool.

ghost use Rattle.std.specs.Prelude.{◌≡◌, ℕ, [], ◌∷◌, ◌<◌, ◌≤◌, true, false, length};
ghost use Rattle.tree_passes.specs.declared.view.Writing.TheVariants.{UnderLocks};
ghost use Rattle.tree_passes.specs.Counting.{Has, times};
ghost use Rattle.tree_passes.specs.Passes.{after_publication, KnowsPlace};
ghost use Rattle.tree_passes.specs.Locks.{IsLock, IsLockOf};
ghost use Rattle.tree_passes.specs.Plays.{changed, IsDrawn, IsReadyFor, LookedUnder};

use crate::plays::{Acquire, Batch, Draw, LookUnder, Put, Release};
use crate::rule::{Pass, Words};
use tree_rule::POOL_PLACE;

/// Tries once to take the lock whose word stands at a place. A pass holds at most one.
#[inline]
pub fn try_lock(table: &Words, pass: &mut Pass, lock: usize) -> bool
    requires locks { table.now.key.writing ≡ UnderLocks }
    requires place { pass.old.table_id ≡ table.now.table_id }
    requires long { length pass.old.me.0.memory ≡ table.now.table_id.words }
    requires word { lock < table.now.table_id.words }
    requires lock { IsLock lock }
    requires none_held { pass.old.me.0.locks ≡ [] }
    ensures pass { (pass.new.table_id ≡ pass.old.table_id) × (pass.new.me.1 ≡ pass.old.me.1) }
    ensures taken { result ≡ true → pass.new.me.0 ≡ record pass.old.me.0 { locks = lock ∷ [] } }
    ensures stays { result ≡ false → pass.new.me.0 ≡ pass.old.me.0 }
{
    table.compare_exchange::<Acquire>(pass, lock, 0, 1) == 0
}

/// Gives the lock up that the pass holds, and what it learnt under it.
#[inline]
pub fn unlock(table: &Words, pass: &mut Pass, lock: usize)
    requires locks { table.now.key.writing ≡ UnderLocks }
    requires place { pass.old.table_id ≡ table.now.table_id }
    requires long { length pass.old.me.0.memory ≡ table.now.table_id.words }
    requires word { lock < table.now.table_id.words }
    requires held { pass.old.me.0.locks ≡ lock ∷ [] }
    ensures pass { (pass.new.table_id ≡ pass.old.table_id) × (pass.new.me.1 ≡ pass.old.me.1) }
    ensures free { pass.new.me.0 ≡ record pass.old.me.0 { locks = []; under = [] } }
{
    table.store::<Release>(pass, lock, 0);
}

/// Loads a published word under its lock. It stays as it is while the lock is held.
#[inline]
pub fn load_locked(table: &Words, pass: &mut Pass, word: usize) -> u64
    requires locks { table.now.key.writing ≡ UnderLocks }
    requires place { pass.old.table_id ≡ table.now.table_id }
    requires word { word < table.now.table_id.words }
    requires known { (key : ℕ) × KnowsPlace pass.old.me.0 word key }
    requires held { (lock : ℕ) × IsLockOf word lock × (1 ≤ times lock pass.old.me.0.locks) }
    ensures pass { (pass.new.table_id ≡ pass.old.table_id) × (pass.new.me.1 ≡ pass.old.me.1) }
    ensures looked { (key : ℕ) → KnowsPlace pass.old.me.0 word key → LookedUnder pass.old.me.0 word key result pass.new.me.0 }
{
    table.load::<LookUnder>(pass, word)
}

/// Stores a published word under its lock, which was loaded under it as `old`, and publishes with it
/// the cells and bodies of a batch.
#[inline]
pub fn store_locked<B: Batch>(table: &Words, pass: &mut Pass, word: usize, old: u64, new: u64)
    requires locks { table.now.key.writing ≡ UnderLocks }
    requires place { pass.old.table_id ≡ table.now.table_id }
    requires word { word < table.now.table_id.words }
    requires ready { (key : ℕ) × KnowsPlace pass.old.me.0 word key × IsReadyFor pass.old.me.0 key old new B.cells B.bodies }
    requires held { (lock : ℕ) × IsLockOf word lock × (1 ≤ times lock pass.old.me.0.locks) }
    requires loaded { Has pass.old.me.0.under (word, old) }
    ensures pass { (pass.new.table_id ≡ pass.old.table_id) × (pass.new.me.1 ≡ pass.old.me.1) }
    ensures put { pass.new.me.0 ≡ record (after_publication pass.old.me.0 B.cells B.bodies) { under = changed pass.old.me.0.under word new } }
{
    let _loaded = old;
    table.store::<Put<B>>(pass, word, new);
}

/// Draws a cell from the shared pool, which counts against the pass's quota.
#[inline]
pub fn draw_cell(table: &Words, pass: &mut Pass) -> u32
    requires locks { table.now.key.writing ≡ UnderLocks }
    requires place { pass.old.table_id ≡ table.now.table_id }
    requires word { POOL_PLACE < table.now.table_id.words }
    requires quota { 1 ≤ pass.old.me.0.quota }
    ensures pass { (pass.new.table_id ≡ pass.old.table_id) × (pass.new.me.1 ≡ pass.old.me.1) }
    ensures drawn { IsDrawn pass.old.me.0 result pass.new.me.0 }
{
    table.fetch_add::<Draw>(pass, POOL_PLACE, 1) as u32
}
