//! The load of a published word.

ghost use Rattle.std.specs.Prelude.{◌≡◌, ℕ, ◌+◌, ◌<◌};
ghost use Rattle.octant_code.specs.Points.{ArePoints};
ghost use Rattle.tree_passes.specs.Passes.{KnowsPlace};
ghost use Rattle.tree_passes.specs.Looks.{Looked, Sought};

use crate::plays::{Nowhere, Seek, Target};
use crate::rule::{Pass, Words};
use octant_code::{Point, Steps};
use std::marker::Brand;
use std::sync::ledger::Ledger;

// Every load of a published word is this one.
#[inline]
fn counted_load<T: Target, L: Ledger>(
    table: &Words,
    pass: &mut Pass,
    word: usize,
    steps: &mut Steps<L>,
) -> u64
    requires place { pass.old.table_id ≡ table.now.table_id }
    requires word { word < table.now.table_id.words }
    requires known { (key : ℕ) × KnowsPlace pass.old.me.0 word key }
    ensures pass { (pass.new.table_id ≡ pass.old.table_id) × (pass.new.me.1 ≡ pass.old.me.1) }
    ensures sought { (key : ℕ) → KnowsPlace pass.old.me.0 word key → Sought pass.old.me.0 word key result T.point pass.new.me.0 }
    ensures steps { steps.new ≡ steps.old + 1 }
{
    steps.tick();
    table.load::<Seek<T>>(pass, word)
}

// The point is picked by the value.
fn load_target<T: Target, L: Ledger>(
    table: &Words,
    pass: &mut Pass,
    word: usize,
    p: Point,
    steps: &mut Steps<L>,
) -> u64
    requires place { pass.old.table_id ≡ table.now.table_id }
    requires word { word < table.now.table_id.words }
    requires known { (key : ℕ) × KnowsPlace pass.old.me.0 word key }
    ensures pass { (pass.new.table_id ≡ pass.old.table_id) × (pass.new.me.1 ≡ pass.old.me.1) }
    ensures sought { (key : ℕ) → KnowsPlace pass.old.me.0 word key → Sought pass.old.me.0 word key result T.point pass.new.me.0 }
    ensures steps { steps.new ≡ steps.old + 1 }
{
    let _point = p;
    counted_load::<T, L>(table, pass, word, steps)
}

/// Loads a published word on the way to a point, and counts a step. A body at the point that the word
/// names is seen from then on; there is none where the point is that of a body that the pass is still
/// to put in.
#[inline]
pub fn load<L: Ledger>(
    table: &Words,
    pass: &mut Pass,
    word: usize,
    p: Point,
    steps: &mut Steps<L>,
) -> u64
    requires place { pass.old.table_id ≡ table.now.table_id }
    requires word { word < table.now.table_id.words }
    requires known { (key : ℕ) × KnowsPlace pass.old.me.0 word key }
    ensures pass { (pass.new.table_id ≡ pass.old.table_id) × (pass.new.me.1 ≡ pass.old.me.1) }
    ensures sought { (key : ℕ) → KnowsPlace pass.old.me.0 word key → Sought pass.old.me.0 word key result p pass.new.me.0 }
    ensures steps { steps.new ≡ steps.old + 1 }
{
    load_target::<Brand, L>(table, pass, word, p, steps)
}

/// Loads a published word on the way to no point, and counts a step. No body is seen by it.
#[inline]
pub fn look<L: Ledger>(table: &Words, pass: &mut Pass, word: usize, steps: &mut Steps<L>) -> u64
    requires place { pass.old.table_id ≡ table.now.table_id }
    requires word { word < table.now.table_id.words }
    requires rule { ArePoints pass.old.me.0.points }
    requires known { (key : ℕ) × KnowsPlace pass.old.me.0 word key }
    ensures pass { (pass.new.table_id ≡ pass.old.table_id) × (pass.new.me.1 ≡ pass.old.me.1) }
    ensures looked { (key : ℕ) → KnowsPlace pass.old.me.0 word key → Looked pass.old.me.0 word key result pass.new.me.0 }
    ensures steps { steps.new ≡ steps.old + 1 }
{
    counted_load::<Nowhere, L>(table, pass, word, steps)
}
