//! What one worker does.

ghost use Rattle.std.specs.Prelude.{List, ℕ, ◌≡◌, ◌<◌, All, length, IfOk};
ghost use Rattle.build_workers.specs.Working.{one_for_each, IsDone, IsReady};

use crate::order::rank_share;
use crate::passes::{SharedInsert, SharedPasses};
use build_gate::{Gate, GatePoint};
use octant_code::{OutOfMemory, Points};
use octree::body_of;
use std::alloc::Global;
use std::marker::{Send, Sync};

/// How one worker puts its share into a shared tree.
pub trait Work<T: SharedPasses>: Sync {
    ghost use Rattle.shared_tree.specs.Seen.{SharedTree};

    /// What a worker has for itself.
    type Own: Send + Drop;

    // Which trees and shares it is for.
    ghost serves: { Self → SharedTree → List ℕ → Type 0 };
    // What a worker has for itself before it puts a share into a tree.
    ghost prepared: { Self → SharedTree → List ℕ → Self.Own → Type 0 };
    // By how many publications a worker may put a share in.
    ghost publishes: { Self → List ℕ → ℕ → Type 0 };

    /// Makes what a worker has for itself, with all memory that its work takes.
    ///
    /// # Errors
    ///
    /// `OutOfMemory` for want of memory.
    fn prepare(&self, alloc: Global, tree: &T, share: &[u32]) -> Result<Self::Own, OutOfMemory>
        requires serves { serves self.now (T.tree tree.now) share.now }
        ensures { IfOk result (λ own. prepared self.now (T.tree tree.now) share.now own) };

    /// Puts the bodies of a share into the tree. The worker of this number passes the gate: `Start`
    /// before its first piece of work, `AfterFirst` after it, and `End`. It takes no memory.
    fn work<G: Gate>(
        &self,
        tree: &T,
        pass: &mut T::Pass,
        share: &[u32],
        own: &mut Self::Own,
        worker: u32,
        gate: &G,
    )
        requires ready { IsReady (T.tree tree.now) (T.state pass.old) share.now }
        requires prepared { prepared self.now (T.tree tree.now) share.now own.old }
        ensures done { IsDone (T.tree tree.now) (publishes self.now) (T.state pass.new) share.now };
}

/// The bodies of a share are inserted one after another, along the Morton keys of these points.
#[derive(Clone, Copy, Drop)]
pub struct InsertEach<'a> {
    pub points: &'a Points,
}

impl<T: SharedInsert> Work<T> for InsertEach<'_> {
    type Own = Vec<u64>;

    ghost serves = { λ w _. All (λ n. n < length w.points.now) };

    ghost prepared = { λ w _ share own. All (λ n. n < length w.points.now) share × length own.items ≡ length share };

    ghost publishes = { λ _. one_for_each };

    fn prepare(&self, alloc: Global, _tree: &T, share: &[u32]) -> Result<Vec<u64>, OutOfMemory> {
        Ok(vec![in alloc; 0u64; share.len()]?)
    }

    fn work<G: Gate>(
        &self,
        tree: &T,
        pass: &mut T::Pass,
        share: &[u32],
        own: &mut Vec<u64>,
        worker: u32,
        gate: &G,
    ) {
        gate.pass(worker, GatePoint::Start);
        let ranks = own.as_mut_slice();
        rank_share(self.points, share, worker, ranks);
        for i in 0..ranks.len() {
            tree.insert(pass, body_of(ranks[i]));
            if i == 0 {
                gate.pass(worker, GatePoint::AfterFirst);
            }
        }
        gate.pass(worker, GatePoint::End);
    }
}
