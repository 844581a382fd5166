//! Workers put shares of bodies into a shared tree, all at the same time.

ghost use Rattle.std.specs.Prelude.{◌≡◌, ℕ, [], ◌≤◌, All, length, map, OnOk};
ghost use Rattle.tree_passes.specs.Counting.{times};
ghost use Rattle.shared_tree.specs.Seen.{IsOf};
ghost use Rattle.build_workers.specs.Shares.{times_in_all};
ghost use Rattle.build_workers.specs.Working.{HasPutShares};

use crate::hands::{deal_hands, join_hands, work_all};
use crate::passes::SharedPasses;
use crate::work::Work;
use build_gate::Gate;
use octant_code::OutOfMemory;
use std::alloc::Global;
use std::thread::Threads;

/// One worker a share puts the bodies of its share into the tree, all workers at the same time, and the
/// pass takes in what they did. The worker of a share has the share's position as its number and
/// passes the gate. One share alone is worked by the calling thread.
///
/// # Errors
///
/// `OutOfMemory` for want of memory, all of which is taken before the first worker begins.
pub fn work_shares<R: Threads + Sync, T: SharedPasses, W: Work<T>, G: Gate>(
    rt: &R,
    alloc: Global,
    tree: &T,
    pass: &mut T::Pass,
    shares: &[Vec<u32>],
    work: &W,
    gate: &G,
) -> Result<(), OutOfMemory>
    requires tree { IsOf (T.state pass.old) (T.tree tree.now) }
    requires count { (1 ≤ length shares.now) × (length shares.now ≤ 64) }
    requires nothing_done { ((T.state pass.old).done ≡ []) × ((T.state pass.old).changes ≡ 0) }
    requires parted { (x : ℕ) → times x (T.state pass.old).todo ≡ times_in_all x (map (λ s. s.items) shares.now) }
    requires serves { All (λ s. W.serves work.now (T.tree tree.now) s.items) shares.now }
    ensures { OnOk result (HasPutShares (T.tree tree.now) (W.publishes work.now) (map (λ s. s.items) shares.now) (T.state pass.new)) }
{
    let mut hands = deal_hands(alloc, tree, pass, shares, work)?;
    work_all(rt, tree, hands.as_mut_slice(), work, gate);
    join_hands(tree, pass, hands);
    Ok(())
}
