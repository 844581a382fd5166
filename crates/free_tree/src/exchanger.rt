//! How a pass publishes without locks.

use octant_code::Steps;
use shared_tree::{Publisher, Spot};
use std::sync::ledger::Ledger;
use tree_passes::{Batch, Pass, Words, exchange};

/// What publishes by one exchange of the published word.
pub struct Exchanger;

impl Publisher for Exchanger {
    ghost use Rattle.tree_passes.specs.declared.view.Writing.TheVariants.{ByExchange};

    ghost writing = { ByExchange };

    #[inline]
    fn publish<B: Batch, L: Ledger>(
        &self,
        table: &Words,
        pass: &mut Pass,
        spot: Spot,
        old: u64,
        new: u64,
        steps: &mut Steps<L>,
    ) -> u64 {
        exchange::<B, L>(table, pass, spot.word, old, new, steps)
    }
}
