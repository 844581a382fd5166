//! Builds by real threads. No clause says that a build ends, that it answers an octree where memory is
//! at hand, or that workers are at work at the same time.

ghost use Rattle.std.specs.Prelude.{◌≡◌, ◌<◌, ◌≤◌, IfOk, length};
ghost use Rattle.std.specs.Arc.{arc_value};
ghost use Rattle.octree.specs.Stored.{IsOctreeOf};

use crate::build;
use build_gate::{Gate, MeetGate, OpenGate};
use build_workers::trial::{are_one, points_at, scattered};
use build_workers::{deal_in_turns, deal_to_owners};
use free_tree::FreeYard;
use octant_code::{OutOfMemory, Points};
use octree::Octree;
use std::alloc::Global;
use std::process::Abort;
use std::sync::Arc;
use std::test::Fail;
use std::thread::Threads;

/// The octree that so many workers build, to which the bodies are dealt in turn.
fn built<R: Threads + Sync, G: Gate>(
    rt: &R,
    alloc: Global,
    points: &Arc<Points>,
    workers: u32,
    gate: &G,
) -> Result<Octree, OutOfMemory>
    requires { (0 < workers) × (workers ≤ 64) }
    ensures { IfOk result (IsOctreeOf (arc_value points.now)) }
{
    let shares = deal_in_turns(alloc, workers, points.len())?;
    let mut yard = FreeYard::new();
    build(rt, alloc, &mut yard, points, &shares, gate)
}

/// So many workers build, so many times, what the octree of the points is.
fn builds_agree<R: Threads + Sync + Abort>(
    rt: &R,
    alloc: Global,
    count: u32,
    workers: u32,
    times: u32,
) -> Result<(), Fail>
    requires { (0 < workers) × (workers ≤ 64) }
{
    let points = scattered(alloc, count)?;
    let wanted = Octree::of_points(alloc, &points)?;
    for _ in 0..times {
        let tree = built(rt, alloc, &points, workers, &OpenGate)?;
        assert!(rt; are_one(alloc, &tree, &wanted)?);
    }
    Ok(())
}

/// Workers build the octree of points, each of its own bodies. Answers how often they published, which
/// is told of the bodies, too.
fn owners_agree<R: Threads + Sync + Abort>(
    rt: &R,
    alloc: Global,
    points: &Arc<Points>,
    workers: u32,
    owners: &[u32],
) -> Result<u64, Fail>
    requires { (0 < workers) × (workers ≤ 64) }
{
    if owners.len() != points.len() as usize {
        return Err(Fail::from("not one owner a body"));
    }
    let shares = deal_to_owners(alloc, workers, owners)?;
    let mut yard = FreeYard::new();
    let tree = build(rt, alloc, &mut yard, points, &shares, &OpenGate)?;
    let wanted = Octree::of_points(alloc, points)?;
    assert!(rt; are_one(alloc, &tree, &wanted)?);
    assert_eq!(rt; yard.published(), u64::from(points.len()));
    Ok(yard.changes())
}

#[test]
fn two_pairs_have_two_blocks(rt: HostRuntime) -> Result<(), Fail> {
    let alloc = rt.alloc();
    let places = [[0, 0, 0], [1, 0, 0], [1_048_576, 0, 0], [1_048_577, 0, 0]];
    let points = points_at(alloc, &places)?;
    assert_eq!(rt; owners_agree(&rt, alloc, &points, 2, &[0, 0, 1, 1])?, 2);
    Ok(())
}

#[test]
fn two_workers_share_two_deep_cells(rt: HostRuntime) -> Result<(), Fail> {
    let alloc = rt.alloc();
    let places = [[0, 0, 0], [1_048_576, 0, 0], [0, 0, 1], [1_048_576, 0, 1]];
    let points = points_at(alloc, &places)?;
    let wanted = Octree::of_points(alloc, &points)?;
    assert_eq!(rt; (wanted.cells(), wanted.depth()), (41, 21));
    assert_eq!(rt; owners_agree(&rt, alloc, &points, 2, &[0, 1, 0, 1])?, 2);
    // each share has a body in each cell: one worker's octree is published at once, or none is
    let changes = owners_agree(&rt, alloc, &points, 2, &[0, 0, 1, 1])?;
    assert!(rt; 2 < changes && changes <= 4);
    Ok(())
}

#[test]
fn one_share_alone_is_published_once(rt: HostRuntime) -> Result<(), Fail> {
    let alloc = rt.alloc();
    let points = scattered(alloc, 300)?;
    let owners = vec![in alloc; 5; 300]?;
    assert_eq!(rt; owners_agree(&rt, alloc, &points, 8, &owners)?, 1);
    assert_eq!(rt; owners_agree(&rt, alloc, &points, 1, &owners)?, 1);
    Ok(())
}

#[test]
fn a_thousand_builds(rt: HostRuntime) -> Result<(), Fail> {
    builds_agree(&rt, rt.alloc(), 300, 8, 1000)
}

#[test]
fn more_workers_than_bodies(rt: HostRuntime) -> Result<(), Fail> {
    builds_agree(&rt, rt.alloc(), 3, 64, 10)?;
    builds_agree(&rt, rt.alloc(), 0, 64, 1)?;
    builds_agree(&rt, rt.alloc(), 0, 1, 1)
}

#[test]
fn two_workers_meet(rt: HostRuntime) -> Result<(), Fail> {
    let points = scattered(rt.alloc(), 300)?;
    let gate = MeetGate::new(0, 1);
    built(&rt, rt.alloc(), &points, 2, &gate)?;
    assert!(rt; !gate.missed());
    Ok(())
}
