//! Builds by real threads. No clause says that a build ends, that it answers an octree where memory is
//! at hand, or that workers are at work at the same time.

ghost use Rattle.std.specs.Prelude.{◌<◌, ◌≤◌, IfOk};
ghost use Rattle.std.specs.Arc.{arc_value};
ghost use Rattle.octree.specs.Stored.{IsOctreeOf};

use crate::build;
use build_gate::{Gate, MeetGate, OpenGate};
use build_workers::deal_in_turns;
use build_workers::trial::{are_one, scattered};
use locked_tree::LockedYard;
use octant_code::{OutOfMemory, Points};
use octree::Octree;
use std::alloc::Global;
use std::process::Abort;
use std::sync::{Arc, Wait};
use std::test::Fail;
use std::thread::Threads;

/// The octree that so many workers build.
fn built<R: Threads + Wait + Sync, G: Gate>(
    rt: &R,
    alloc: Global,
    points: &Arc<Points>,
    workers: u32,
    gate: &G,
) -> Result<Octree, OutOfMemory>
    requires { (0 < workers) × (workers ≤ 64) }
    ensures { IfOk result (IsOctreeOf (arc_value points.now)) }
{
    let shares = deal_in_turns(alloc, workers, points.len())?;
    let mut yard = LockedYard::new();
    build(rt, alloc, &mut yard, points, &shares, gate)
}

/// So many workers build, so many times, what the octree of the points is.
fn builds_agree<R: Threads + Wait + Sync + Abort>(
    rt: &R,
    alloc: Global,
    count: u32,
    workers: u32,
    times: u32,
) -> Result<(), Fail>
    requires { (0 < workers) × (workers ≤ 64) }
{
    let points = scattered(alloc, count)?;
    let wanted = Octree::of_points(alloc, &points)?;
    for _ in 0..times {
        let tree = built(rt, alloc, &points, workers, &OpenGate)?;
        assert!(rt; are_one(alloc, &tree, &wanted)?);
    }
    Ok(())
}

#[test]
fn a_thousand_builds(rt: HostRuntime) -> Result<(), Fail> {
    builds_agree(&rt, rt.alloc(), 50, 8, 1000)
}

#[test]
fn one_to_sixty_four_workers(rt: HostRuntime) -> Result<(), Fail> {
    builds_agree(&rt, rt.alloc(), 300, 1, 1)?;
    builds_agree(&rt, rt.alloc(), 300, 3, 10)?;
    builds_agree(&rt, rt.alloc(), 1000, 64, 10)
}

#[test]
fn more_workers_than_bodies(rt: HostRuntime) -> Result<(), Fail> {
    builds_agree(&rt, rt.alloc(), 3, 64, 10)?;
    builds_agree(&rt, rt.alloc(), 0, 64, 1)?;
    builds_agree(&rt, rt.alloc(), 0, 1, 1)
}

#[test]
fn two_workers_meet(rt: HostRuntime) -> Result<(), Fail> {
    let points = scattered(rt.alloc(), 300)?;
    let gate = MeetGate::new(0, 1);
    built(&rt, rt.alloc(), &points, 2, &gate)?;
    assert!(rt; !gate.missed());
    Ok(())
}
