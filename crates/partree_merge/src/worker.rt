//! What one worker does.

ghost use Rattle.std.specs.Prelude.{◌≡◌, ◌+◌, ◌*◌, ◌<◌, ◌≤◌, ℕ, [], length};
ghost use Rattle.octant_code.specs.Points.{site_at};
ghost use Rattle.bh_model.specs.Blocks.{blocks};
ghost use Rattle.bh_model.specs.Bodies.{IsIn, NoneTwice};
ghost use Rattle.bh_model.specs.Trees.{cell_count, octree};
ghost use Rattle.tree_rule.specs.declared.words.TheConstants.{CELLS_OF_ONE};
ghost use Rattle.octree.specs.Stored.{root_word, spare_of, tree_of};
ghost use Rattle.tree_passes.specs.Counting.{times};
ghost use Rattle.tree_passes.specs.Opening.{all_bodies};
ghost use Rattle.shared_tree.specs.Merging.{others_among, HasAllBodies};
ghost use Rattle.shared_tree.specs.Seen.{IsOf};

use crate::fill::fill;
use build_gate::{Gate, GatePoint};
use free_tree::{FreePass, FreeTree};
use octant_code::{Points, Steps};
use octree::Octree;
use std::sync::ledger::Ledger;

/// What a worker passes. A call in a method for any gate can't have a bound that says that threads share
/// the gate, so this is a gate without it.
pub(crate) trait Passing {
    fn pass(&self, point: GatePoint);
}

/// A gate, as the worker of a number passes it.
#[derive(Drop)]
pub(crate) struct AtGate<'a, G> {
    pub(crate) gate: &'a G,
    pub(crate) worker: u32,
}

impl<G: Gate> Passing for AtGate<'_, G> {
    fn pass(&self, point: GatePoint) {
        self.gate.pass(self.worker, point);
    }
}

/// Builds the octree of the bodies of a share alone, in the order of the share, and merges it into the
/// tree. It publishes at least once for a share that has a body, at most as often as the share has
/// blocks against the other bodies of the opening, and once where each body of the opening is one that
/// the pass is to put in. A share of `b` bodies whose octree has `c` cells takes at most `3 * (c + 22 * b)` steps,
/// and at most 3 where the pass is alone.
///
/// The worker of this number passes the gate: `Start` first, `AfterFirst` when its octree is merged, and
/// `End`; with no body, `Start` and `End` alone. It waits for nobody, and takes no memory.
pub fn work<L: Ledger, G: Gate>(
    tree: &FreeTree,
    pass: &mut FreePass,
    points: &Points,
    share: &[u32],
    own: &mut Octree,
    worker: u32,
    gate: &G,
    steps: &mut Steps<L>,
)
    requires tree { IsOf pass.old tree.now }
    requires points { points.now ≡ tree.now.opening.sites }
    requires distinct { NoneTwice share.now }
    requires todo { (x : ℕ) → IsIn share.now x → 1 ≤ times x pass.old.todo }
    requires base { own.old.base ≡ 1 }
    requires empty { root_word own.old ≡ 0 }
    requires spare { CELLS_OF_ONE * length share.now ≤ spare_of own.old }
    ensures pass { pass.new ≡ record pass.old { todo = pass.new.todo; done = pass.new.done; changes = pass.new.changes; loads = pass.new.loads; last = pass.new.last } }
    ensures todo { (x : ℕ) → times x pass.new.todo + times x share.now ≡ times x pass.old.todo }
    ensures done { (x : ℕ) → times x pass.new.done ≡ times x share.now + times x pass.old.done }
    ensures own { tree_of own.new ≡ octree (site_at points.now) share.now }
    ensures most { pass.new.changes ≤ pass.old.changes + blocks (site_at points.now) share.now (others_among (all_bodies tree.now.opening) share.now) }
    ensures some { 1 ≤ length share.now → pass.old.changes + 1 ≤ pass.new.changes }
    ensures once { HasAllBodies pass.old tree.now.opening → 1 ≤ length share.now → pass.new.changes ≡ pass.old.changes + 1 }
    ensures steps { steps.new ≤ steps.old + 3 * (cell_count (octree (site_at points.now) share.now) + 22 * length share.now) }
    ensures few_steps { HasAllBodies pass.old tree.now.opening → steps.new ≤ steps.old + 3 }
{
    let at = AtGate { gate, worker };
    at.pass(GatePoint::Start);
    work_at(tree, pass, points, share, share, own, &at, steps);
}

/// The work of one worker that has passed its gate at `Start`. Its octree is built in the given order of
/// the share's bodies.
pub(crate) fn work_at<L: Ledger, P: Passing>(
    tree: &FreeTree,
    pass: &mut FreePass,
    points: &Points,
    share: &[u32],
    sequence: &[u32],
    own: &mut Octree,
    gate: &P,
    steps: &mut Steps<L>,
)
    requires tree { IsOf pass.old tree.now }
    requires points { points.now ≡ tree.now.opening.sites }
    requires distinct { NoneTwice share.now }
    requires todo { (x : ℕ) → IsIn share.now x → 1 ≤ times x pass.old.todo }
    requires base { own.old.base ≡ 1 }
    requires empty { root_word own.old ≡ 0 }
    requires spare { CELLS_OF_ONE * length share.now ≤ spare_of own.old }
    requires same { (x : ℕ) → times x sequence.now ≡ times x share.now }
    ensures pass { pass.new ≡ record pass.old { todo = pass.new.todo; done = pass.new.done; changes = pass.new.changes; loads = pass.new.loads; last = pass.new.last } }
    ensures todo { (x : ℕ) → times x pass.new.todo + times x share.now ≡ times x pass.old.todo }
    ensures done { (x : ℕ) → times x pass.new.done ≡ times x share.now + times x pass.old.done }
    ensures own { tree_of own.new ≡ octree (site_at points.now) share.now }
    ensures most { pass.new.changes ≤ pass.old.changes + blocks (site_at points.now) share.now (others_among (all_bodies tree.now.opening) share.now) }
    ensures some { 1 ≤ length share.now → pass.old.changes + 1 ≤ pass.new.changes }
    ensures once { HasAllBodies pass.old tree.now.opening → 1 ≤ length share.now → pass.new.changes ≡ pass.old.changes + 1 }
    ensures steps { steps.new ≤ steps.old + 3 * (cell_count (octree (site_at points.now) share.now) + 22 * length share.now) }
    ensures few_steps { HasAllBodies pass.old tree.now.opening → steps.new ≤ steps.old + 3 }
{
    pass.todo_in_points();
    fill(own, points, share, sequence);
    tree.merge(pass, own, steps);
    if !share.is_empty() {
        gate.pass(GatePoint::AfterFirst);
    }
    gate.pass(GatePoint::End);
}
