//! How a pass publishes under locks.

ghost use Rattle.std.specs.Prelude.{◌≡◌, [], ◌∷◌, ◌<◌, length};
ghost use Rattle.tree_passes.specs.declared.view.Writing.TheVariants.{UnderLocks};
ghost use Rattle.tree_passes.specs.Locks.{IsLock};

use octant_code::Steps;
use shared_tree::{Publisher, Spot};
use std::hint;
use std::sync::Wait;
use std::sync::ledger::Ledger;
use std::thread::yield_now;
use tree_passes::{Batch, Pass, Words, load_locked, store_locked, try_lock, unlock};

// How often a lock is tried before other threads are let run.
const TRIES: u32 = 64;

/// Takes a lock, and waits for it as long as another pass holds it.
#[inline]
fn take_lock<R: Wait>(rt: &R, table: &Words, pass: &mut Pass, lock: usize)
    requires locks { table.now.key.writing ≡ UnderLocks }
    requires place { pass.old.table_id ≡ table.now.table_id }
    requires long { length pass.old.me.0.memory ≡ table.now.table_id.words }
    requires word { lock < table.now.table_id.words }
    requires lock { IsLock lock }
    requires none_held { pass.old.me.0.locks ≡ [] }
    ensures pass { (pass.new.table_id ≡ pass.old.table_id) × (pass.new.me.1 ≡ pass.old.me.1) }
    ensures taken { pass.new.me.0 ≡ record pass.old.me.0 { locks = lock ∷ [] } }
{
    for _ in rt.forever() {
        for _ in 0..TRIES {
            if try_lock(table, pass, lock) {
                return;
            }
            hint::spin_loop();
        }
        yield_now();
    }
    unreachable!()
}

/// What publishes under the lock of a published word, and waits for it.
#[derive(Drop)]
pub struct Locking<'a, R> {
    pub rt: &'a R,
}

impl<'a, R: Wait> Publisher for Locking<'a, R> {
    ghost use Rattle.tree_passes.specs.declared.view.Writing.TheVariants.{UnderLocks};

    ghost writing = { UnderLocks };

    #[inline]
    fn publish<B: Batch, L: Ledger>(
        &self,
        table: &Words,
        pass: &mut Pass,
        spot: Spot,
        old: u64,
        new: u64,
        steps: &mut Steps<L>,
    ) -> u64 {
        steps.tick();
        take_lock(self.rt, table, pass, spot.lock);
        let found = load_locked(table, pass, spot.word);
        if found != old {
            unlock(table, pass, spot.lock);
            return found;
        }
        store_locked::<B>(table, pass, spot.word, old, new);
        unlock(table, pass, spot.lock);
        found
    }
}
