//! How many steps insertions and searches take, counted one by one.

ghost use Rattle.std.specs.Prelude.{◌≡◌, ℕ, ◌<◌, ◌≤◌, All, IfOk, length};
ghost use Rattle.std.specs.Arc.{arc_value};
ghost use Rattle.bh_model.specs.Bodies.{numbers};
ghost use Rattle.tree_passes.specs.Counting.{sum_of, times};
ghost use Rattle.shared_tree.specs.Seen.{IsOf};

use build_workers::trial::cornered;
use build_workers::{deal_in_turns, first_numbers};
use free_tree::{FreePass, FreeTree, FreeYard};
use octant_code::{OutOfMemory, Points, Steps};
use octree::Octree;
use std::alloc::Global;
use std::marker::Brand;
use std::process::Abort;
use std::sync::Arc;
use std::sync::ledger::{Blank, Ledger};
use std::test::Fail;
use std::thread;
use std::thread::Threads;

/// A pass with the bodies that it is to put in, the most steps of one insertion and of one search, and
/// whether each body was found once it was in.
#[derive(Drop)]
pub struct Counted<'a> {
    pub pass: FreePass,
    pub share: &'a [u32],
    pub insertion: u64,
    pub search: u64,
    pub found: bool,
}

/// Whether a pass finds a body at the point of another.
fn finds<L: Ledger>(
    tree: &FreeTree,
    points: &Points,
    pass: &mut FreePass,
    n: u32,
    steps: &mut Steps<L>,
) -> bool
    requires tree { IsOf pass.old tree.now }
    ensures tree { IsOf pass.new tree.now }
    ensures todo { pass.new.todo ≡ pass.old.todo }
{
    if n >= points.len() {
        return false;
    }
    match tree.find(pass, points.at(n), steps) {
        Some(b) => b == n,
        None => false,
    }
}

/// Puts the bodies of a share in, each of which is searched then, and counts the steps of each call.
fn count_each<L: Ledger>(tree: &FreeTree, points: &Points, counted: &mut Counted<'_>, blank: Blank)
    requires name { blank.name ≡ L.name }
    requires parts { (blank.parts ≡ L.parts) × (0 < blank.parts) }
    requires tree { IsOf counted.old.pass tree.now }
    requires todo { counted.old.pass.todo ≡ counted.old.share.now }
{
    let mut steps = Steps::<L>::new(blank);
    let share = counted.share;
    for i in 0..share.len() {
        let before = steps.taken();
        tree.insert(&mut counted.pass, share[i], &mut steps);
        let between = steps.taken();
        let found = finds(tree, points, &mut counted.pass, share[i], &mut steps);
        let after = steps.taken();
        counted.insertion = counted.insertion.max(between.saturating_sub(before));
        counted.search = counted.search.max(after.saturating_sub(between));
        counted.found = counted.found && found;
    }
}

/// The same, in a ledger of its own.
fn count_alone(tree: &FreeTree, points: &Points, counted: &mut Counted<'_>)
    requires tree { IsOf counted.old.pass tree.now }
    requires todo { counted.old.pass.todo ≡ counted.old.share.now }
{
    count_each::<Brand>(tree, points, counted, Blank::new(1));
}

/// Passes put shares in at the same time, and count.
fn count_all<R: Threads + Sync>(
    rt: &R,
    tree: &FreeTree,
    points: &Points,
    passes: &mut [Counted<'_>],
)
    requires { All (λ c. IsOf c.pass tree.now × (c.pass.todo ≡ c.share.now)) passes.old }
{
    let workers = passes.len();
    if workers == 0 {
        return;
    }
    thread::for_each_mut(
        rt,
        passes,
        workers,
        &|_, counted: &mut Counted<'_>|
            requires { IsOf counted.old.pass tree.now × (counted.old.pass.todo ≡ counted.old.share.now) }
        { count_alone(tree, points, counted) },
    );
}

/// Splits a pass for each share off.
fn deal_counted<'a>(
    alloc: Global,
    tree: &FreeTree,
    pass: &mut FreePass,
    shares: &'a [Vec<u32>],
) -> Result<Vec<Counted<'a>>, OutOfMemory>
    requires tree { IsOf pass.old tree.now }
    requires todo { (x : ℕ) → times x pass.old.todo ≡ sum_of (λ s. times x s.items) shares.now }
    ensures { IfOk result (λ v. All (λ c. IsOf c.pass tree.now × (c.pass.todo ≡ c.share.now)) v.items) }
{
    let mut passes = Vec::with_capacity(alloc, shares.len())?;
    for share in shares {
        let own = tree.split(pass, share)?;
        passes.push(Counted {
            pass: own,
            share: share.as_slice(),
            insertion: 0,
            search: 0,
            found: true,
        })?;
    }
    Ok(passes)
}

/// An empty tree, and the pass that is entrusted with all bodies.
fn opened(alloc: Global, points: &Arc<Points>) -> Result<(FreeTree, FreePass), OutOfMemory>
    ensures tree { IfOk result (λ r. IsOf r.1 r.0) }
    ensures todo { IfOk result (λ r. r.1.todo ≡ numbers (length (arc_value points.now))) }
{
    let todo = first_numbers(alloc, points.len())?;
    let start = Octree::empty(alloc, 0)?;
    let mut yard = FreeYard::new();
    yard.open(alloc, points, start, &todo)
}

/// So many workers put in so many bodies of a corner. Each of 22 words is looked at three times at most
/// by an insertion, and once by a search, which finds the body.
fn steps_are_few<R: Threads + Sync + Abort>(
    rt: &R,
    alloc: Global,
    count: u32,
    workers: u32,
) -> Result<(), Fail>
    requires { (0 < workers) × (workers ≤ 64) }
{
    let points = cornered(alloc, count)?;
    let shares = deal_in_turns(alloc, workers, points.len())?;
    let (tree, mut pass) = opened(alloc, &points)?;
    let mut passes = deal_counted(alloc, &tree, &mut pass, &shares)?;
    count_all(rt, &tree, &points, passes.as_mut_slice());
    for counted in passes.iter() {
        assert!(rt; counted.found);
        assert!(rt; 2 < counted.insertion && counted.insertion <= 66);
        assert!(rt; 1 < counted.search && counted.search <= 22);
    }
    Ok(())
}

#[test]
fn steps_of_one_worker(rt: HostRuntime) -> Result<(), Fail> {
    steps_are_few(&rt, rt.alloc(), 5_000, 1)
}

#[test]
fn steps_of_eight_workers(rt: HostRuntime) -> Result<(), Fail> {
    steps_are_few(&rt, rt.alloc(), 5_000, 8)
}
