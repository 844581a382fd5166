//! A tree without locks, into which workers merge octrees of their own.

ghost use Rattle.std.specs.Prelude.{◌≡◌, ◌*◌, ◌<◌, ◌≤◌, ℕ, All, length};
ghost use Rattle.tree_rule.specs.declared.words.TheConstants.{CELLS_OF_ONE};
ghost use Rattle.octree.specs.Stored.{root_word, spare_of};
ghost use Rattle.tree_passes.specs.Counting.{times};
ghost use Rattle.build_workers.specs.Working.{IsDone, IsReady};
ghost use Rattle.partree_merge.specs.Merging.{CanMerge, IsPrepared, MayPublish};

use crate::worker::{AtGate, Passing, work_at};
use build_gate::{Gate, GatePoint};
use build_workers::{SharedPasses, Work, rank_share};
use free_tree::{FreePass, FreeTree};
use octant_code::{OutOfMemory, Points, Steps};
use octree::{Octree, body_of};
use std::alloc::Global;
use std::marker::Brand;
use std::sync::ledger::{Blank, Ledger};
use tree_rule::CELLS_OF_ONE;

/// A tree without locks, as workers see it.
#[derive(Drop)]
pub struct Unlocked<'a> {
    pub tree: &'a FreeTree,
}

impl SharedPasses for Unlocked<'_> {
    type Pass = FreePass;

    ghost tree = { λ t. t.tree.now };

    ghost state = { λ p. p };

    fn split(&self, pass: &mut FreePass, part: &[u32]) -> Result<FreePass, OutOfMemory> {
        self.tree.split(pass, part)
    }

    fn join(&self, into: &mut FreePass, from: FreePass) {
        self.tree.join(into, from);
    }
}

/// What a worker has for itself: an octree, and room for the order in which it fills that.
#[derive(Drop)]
pub struct Private {
    pub tree: Octree,
    pub ranks: Vec<u64>,
    pub sequence: Vec<u32>,
}

/// Each worker builds an octree of its share alone, along the Morton keys, and merges it. The tree was
/// opened empty, with all bodies of these points.
#[derive(Drop)]
pub struct MergeOwn<'a> {
    pub points: &'a Points,
}

// Puts a share in, by steps in a ledger of their own.
fn put_alone<L: Ledger, P: Passing>(
    tree: &FreeTree,
    pass: &mut FreePass,
    points: &Points,
    share: &[u32],
    sequence: &[u32],
    own: &mut Octree,
    gate: &P,
    blank: Blank,
)
    requires name { blank.name ≡ L.name }
    requires parts { (blank.parts ≡ L.parts) × (0 < blank.parts) }
    requires ready { IsReady tree.now pass.old share.now }
    requires prepared { IsPrepared points.now tree.now share.now own.old }
    requires same { (x : ℕ) → times x sequence.now ≡ times x share.now }
    ensures { IsDone tree.now (MayPublish points.now) pass.new share.now }
{
    let mut steps = Steps::<L>::new(blank);
    work_at(tree, pass, points, share, sequence, own, gate, &mut steps);
}

// Puts the bodies of a share in the order of their points' Morton keys.
fn order_share(points: &Points, share: &[u32], ranks: &mut [u64], sequence: &mut [u32])
    requires below { All (λ n. n < length points.now) share.now }
    requires ranks { length ranks.old ≡ length share.now }
    requires sequence { length sequence.old ≡ length share.now }
    ensures same { (x : ℕ) → times x sequence.new ≡ times x share.now }
{
    rank_share(points, share, 0, ranks);
    for i in 0..sequence.len() {
        sequence[i] = body_of(ranks[i]);
    }
}

impl Work<Unlocked<'_>> for MergeOwn<'_> {
    type Own = Private;

    ghost serves = { λ w. CanMerge w.points.now };

    ghost prepared = { λ w t share own. IsPrepared w.points.now t share own.tree × (length own.ranks.items ≡ length share) × (length own.sequence.items ≡ length share) };

    ghost publishes = { λ w. MayPublish w.points.now };

    fn prepare(
        &self,
        alloc: Global,
        _tree: &Unlocked<'_>,
        share: &[u32],
    ) -> Result<Private, OutOfMemory> {
        let _rule = self.points.len();
        Ok(Private {
            tree: Octree::empty(alloc, CELLS_OF_ONE * share.len() as u32)?,
            ranks: vec![in alloc; 0u64; share.len()]?,
            sequence: vec![in alloc; 0u32; share.len()]?,
        })
    }

    fn work<G: Gate>(
        &self,
        tree: &Unlocked<'_>,
        pass: &mut FreePass,
        share: &[u32],
        own: &mut Private,
        worker: u32,
        gate: &G,
    ) {
        let at = AtGate { gate, worker };
        at.pass(GatePoint::Start);
        let sequence = own.sequence.as_mut_slice();
        order_share(self.points, share, own.ranks.as_mut_slice(), sequence);
        put_alone::<Brand, AtGate<'_, G>>(
            tree.tree,
            pass,
            self.points,
            share,
            sequence,
            &mut own.tree,
            &at,
            Blank::new(1),
        );
    }
}
