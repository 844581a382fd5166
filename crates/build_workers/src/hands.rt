//! The workers: what each holds, how they are made, what they do, and how they are taken in again.

ghost use Rattle.std.specs.Prelude.{◌≡◌, ℕ, [], ◌<◌, ◌≤◌, All, length, map, IfOk, OnOk};
ghost use Rattle.tree_passes.specs.Counting.{sum_of, times};
ghost use Rattle.shared_tree.specs.Seen.{IsOf};
ghost use Rattle.build_workers.specs.Hands.{joined_with, AreDealt, AreNumbered, ArePrepared, AreReady, AreSpent, EachIsDone};
ghost use Rattle.build_workers.specs.Working.{IsDone, IsReady};

use crate::passes::SharedPasses;
use crate::work::Work;
use build_gate::Gate;
use octant_code::OutOfMemory;
use std::alloc::Global;
use std::thread;
use std::thread::Threads;

/// A worker: its pass, the bodies that it is to put in, what it has for itself, and its number.
#[derive(Drop)]
pub struct Hand<'a, P, O> {
    pub pass: P,
    pub share: &'a [u32],
    pub own: O,
    pub worker: u32,
    // so that what a worker counts is on no line of the caches with what another one reads
    pub apart: [u64; 8],
}

/// Splits a pass for each share off, and makes what its worker has for itself.
pub fn deal_hands<'a, T: SharedPasses, W: Work<T>>(
    alloc: Global,
    tree: &T,
    pass: &mut T::Pass,
    shares: &'a [Vec<u32>],
    work: &W,
) -> Result<Vec<Hand<'a, T::Pass, W::Own>>, OutOfMemory>
    requires tree { IsOf (T.state pass.old) (T.tree tree.now) }
    requires few { length shares.now ≤ 64 }
    requires nothing_done { ((T.state pass.old).done ≡ []) × ((T.state pass.old).changes ≡ 0) }
    requires parted { (x : ℕ) → times x (T.state pass.old).todo ≡ sum_of (λ s. times x s.items) shares.now }
    requires serves { All (λ s. W.serves work.now (T.tree tree.now) s.items) shares.now }
    ensures ready { IfOk result (λ v. AreReady T.state (T.tree tree.now) v.items) }
    ensures prepared { IfOk result (λ v. ArePrepared (W.prepared work.now (T.tree tree.now)) v.items) }
    ensures shares { IfOk result (λ v. AreDealt (map (λ s. s.items) shares.now) v.items) }
    ensures workers { IfOk result (λ v. AreNumbered (length shares.now) v.items) }
    ensures pass { OnOk result (T.state pass.new ≡ record (T.state pass.old) { todo = [] }) }
{
    let mut hands = Vec::with_capacity(alloc, shares.len())?;
    for w in 0..shares.len() {
        let share = shares[w].as_slice();
        let own = work.prepare(alloc, tree, share)?;
        let part = tree.split(pass, share)?;
        hands.push(Hand {
            pass: part,
            share,
            own,
            worker: w as u32,
            apart: [0; 8],
        })?;
    }
    Ok(hands)
}

/// All workers put their shares in at the same time, each in a thread of its own; one worker alone is
/// at work in the calling thread. It takes no memory.
pub fn work_all<R: Threads + Sync, T: SharedPasses, W: Work<T>, G: Gate>(
    rt: &R,
    tree: &T,
    hands: &mut [Hand<'_, T::Pass, W::Own>],
    work: &W,
    gate: &G,
)
    requires ready { AreReady T.state (T.tree tree.now) hands.old }
    requires prepared { ArePrepared (W.prepared work.now (T.tree tree.now)) hands.old }
    requires some { 0 < length hands.old }
    ensures count { length hands.new ≡ length hands.old }
    ensures done { EachIsDone T.state (T.tree tree.now) (W.publishes work.now) hands.old hands.new }
{
    let workers = hands.len();
    thread::for_each_mut(
        rt,
        hands,
        workers,
        &|_, hand: &mut Hand<'_, T::Pass, W::Own>|
            requires { IsReady (T.tree tree.now) (T.state hand.old.pass) hand.old.share.now × W.prepared work.now (T.tree tree.now) hand.old.share.now hand.old.own }
            ensures { IsDone (T.tree tree.entry.now) (W.publishes work.entry.now) (T.state hand.new.pass) hand.old.share.now }
        {
            work.work(
                tree,
                &mut hand.pass,
                hand.share,
                &mut hand.own,
                hand.worker,
                gate,
            )
        },
    );
}

/// Takes the passes of the workers in, in their order.
pub fn join_hands<T: SharedPasses, O: Drop>(
    tree: &T,
    pass: &mut T::Pass,
    hands: Vec<Hand<'_, T::Pass, O>>,
)
    requires tree { IsOf (T.state pass.old) (T.tree tree.now) }
    requires spent { AreSpent T.state (T.tree tree.now) hands.items }
    ensures { T.state pass.new ≡ joined_with T.state (T.state pass.old) hands.entry.items }
{
    for hand in hands {
        tree.join(pass, hand.pass);
    }
}
