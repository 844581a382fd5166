//! The step by which a tree without locks publishes.

ghost use Rattle.std.specs.Prelude.{◌≡◌, ◌≢◌, ℕ, ◌+◌, ◌<◌};
ghost use Rattle.tree_passes.specs.declared.view.Writing.TheVariants.{ByExchange};
ghost use Rattle.tree_passes.specs.Passes.{after_publication, KnowsPlace};
ghost use Rattle.tree_passes.specs.Looks.{Learns};
ghost use Rattle.tree_passes.specs.Plays.{IsReadyFor};

use crate::plays::{Batch, Publish};
use crate::rule::{Pass, Words};
use octant_code::Steps;
use std::sync::ledger::Ledger;

/// Puts `new` in the place of `old`, if a published word is still `old`, and publishes with it the
/// cells and bodies of a batch. Counts a step. Returns what was there; other than `old` it is learnt.
#[inline]
pub fn exchange<B: Batch, L: Ledger>(
    table: &Words,
    pass: &mut Pass,
    word: usize,
    old: u64,
    new: u64,
    steps: &mut Steps<L>,
) -> u64
    requires free { table.now.key.writing ≡ ByExchange }
    requires place { pass.old.table_id ≡ table.now.table_id }
    requires word { word < table.now.table_id.words }
    requires ready { (key : ℕ) × KnowsPlace pass.old.me.0 word key × IsReadyFor pass.old.me.0 key old new B.cells B.bodies }
    ensures pass { (pass.new.table_id ≡ pass.old.table_id) × (pass.new.me.1 ≡ pass.old.me.1) }
    ensures hit { result ≡ old → pass.new.me.0 ≡ after_publication pass.old.me.0 B.cells B.bodies }
    ensures miss { result ≢ old → (key : ℕ) → KnowsPlace pass.old.me.0 word key → Learns pass.old.me.0 word key result pass.new.me.0 }
    ensures steps { steps.new ≡ steps.old + 1 }
{
    steps.tick();
    table.compare_exchange::<Publish<B>>(pass, word, old, new)
}
