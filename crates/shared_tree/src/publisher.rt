//! How a pass publishes in a shared tree.

ghost use Rattle.std.specs.Prelude.{◌≡◌, ◌≢◌, ℕ, [], ◌+◌, length};
ghost use Rattle.tree_passes.specs.Passes.{KnowsPlace};
ghost use Rattle.tree_passes.specs.Plays.{IsReadyFor};
ghost use Rattle.shared_tree.specs.Publishing.{batch_bodies, HasFoundOther, HasPublished, IsSpot};

use octant_code::Steps;
use octree::Subtree;
use std::marker::Brand;
use std::sync::ledger::Ledger;
use tree_passes::{Batch, Pass, Words};

/// A published word on the way down: its place, that of its lock, and the level of its cube.
#[derive(Clone, Copy, Drop)]
pub struct Spot {
    pub word: usize,
    pub lock: usize,
    pub level: u32,
}

/// What publishes in the tables of one kind of writing.
pub trait Publisher {
    ghost use Rattle.tree_passes.specs.declared.view.Writing.{Writing};

    ghost writing: { Writing };

    /// Puts `new` in the place of `old`, if a published word is still `old`, and publishes with it the
    /// cells and bodies of a batch. Counts a step. Returns what was there; other than `old` it is
    /// learnt. A pass holds no lock before it and none after it.
    fn publish<B: Batch, L: Ledger>(
        &self,
        table: &Words,
        pass: &mut Pass,
        spot: Spot,
        old: u64,
        new: u64,
        steps: &mut Steps<L>,
    ) -> u64
        requires writing { table.now.key.writing ≡ writing }
        requires place { pass.old.table_id ≡ table.now.table_id }
        requires spot { IsSpot table.now.table_id.words spot }
        requires long { length pass.old.me.0.memory ≡ table.now.table_id.words }
        requires no_lock { (pass.old.me.0.locks ≡ []) × (pass.old.me.0.under ≡ []) }
        requires ready { (key : ℕ) × KnowsPlace pass.old.me.0 spot.word key × IsReadyFor pass.old.me.0 key old new B.cells B.bodies }
        ensures pass { (pass.new.table_id ≡ pass.old.table_id) × (pass.new.me.1 ≡ pass.old.me.1) }
        ensures no_lock { (pass.new.me.0.locks ≡ []) × (pass.new.me.0.under ≡ []) }
        ensures hit { result ≡ old → HasPublished pass.old.me.0 pass.new.me.0 B.cells B.bodies }
        ensures miss { result ≢ old → (key : ℕ) → KnowsPlace pass.old.me.0 spot.word key → HasFoundOther pass.old.me.0 spot.word key result pass.new.me.0 }
        ensures steps { steps.new ≡ steps.old + 1 };
}

/// The bodies that a publication puts in: those of a list, or those of a subtree of a private octree.
#[derive(Clone, Copy, Drop)]
pub enum Batched<'a> {
    These(&'a [u32]),
    Below(&'a Subtree<'a>),
}

// The batch is picked by the cells and the bodies.
fn publish_batch<P: Publisher, B: Batch, L: Ledger>(
    publisher: &P,
    table: &Words,
    pass: &mut Pass,
    spot: Spot,
    old: u64,
    new: u64,
    cells: &[u32],
    bodies: Batched,
    steps: &mut Steps<L>,
) -> u64
    requires writing { table.now.key.writing ≡ P.writing }
    requires place { pass.old.table_id ≡ table.now.table_id }
    requires spot { IsSpot table.now.table_id.words spot }
    requires long { length pass.old.me.0.memory ≡ table.now.table_id.words }
    requires no_lock { (pass.old.me.0.locks ≡ []) × (pass.old.me.0.under ≡ []) }
    requires ready { (key : ℕ) × KnowsPlace pass.old.me.0 spot.word key × IsReadyFor pass.old.me.0 key old new B.cells B.bodies }
    ensures pass { (pass.new.table_id ≡ pass.old.table_id) × (pass.new.me.1 ≡ pass.old.me.1) }
    ensures no_lock { (pass.new.me.0.locks ≡ []) × (pass.new.me.0.under ≡ []) }
    ensures hit { result ≡ old → HasPublished pass.old.me.0 pass.new.me.0 B.cells B.bodies }
    ensures miss { result ≢ old → (key : ℕ) → KnowsPlace pass.old.me.0 spot.word key → HasFoundOther pass.old.me.0 spot.word key result pass.new.me.0 }
    ensures steps { steps.new ≡ steps.old + 1 }
{
    let _cells = cells.len();
    let _bodies = bodies;
    publisher.publish::<B, L>(table, pass, spot, old, new, steps)
}

/// Puts `new` in the place of `old`, if a published word is still `old`, and publishes with it these
/// cells and bodies. Counts a step. Returns what was there; other than `old` it is learnt.
#[inline]
pub fn publish<P: Publisher, L: Ledger>(
    publisher: &P,
    table: &Words,
    pass: &mut Pass,
    spot: Spot,
    old: u64,
    new: u64,
    cells: &[u32],
    bodies: Batched,
    steps: &mut Steps<L>,
) -> u64
    requires writing { table.now.key.writing ≡ P.writing }
    requires place { pass.old.table_id ≡ table.now.table_id }
    requires spot { IsSpot table.now.table_id.words spot }
    requires long { length pass.old.me.0.memory ≡ table.now.table_id.words }
    requires no_lock { (pass.old.me.0.locks ≡ []) × (pass.old.me.0.under ≡ []) }
    requires ready { (key : ℕ) × KnowsPlace pass.old.me.0 spot.word key × IsReadyFor pass.old.me.0 key old new cells.now (batch_bodies bodies) }
    ensures pass { (pass.new.table_id ≡ pass.old.table_id) × (pass.new.me.1 ≡ pass.old.me.1) }
    ensures no_lock { (pass.new.me.0.locks ≡ []) × (pass.new.me.0.under ≡ []) }
    ensures hit { result ≡ old → HasPublished pass.old.me.0 pass.new.me.0 cells.now (batch_bodies bodies.entry) }
    ensures miss { result ≢ old → (key : ℕ) → KnowsPlace pass.old.me.0 spot.word key → HasFoundOther pass.old.me.0 spot.word key result pass.new.me.0 }
    ensures steps { steps.new ≡ steps.old + 1 }
{
    publish_batch::<P, Brand, L>(publisher, table, pass, spot, old, new, cells, bodies, steps)
}
