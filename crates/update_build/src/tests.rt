//! Updates by real threads. No clause says that an update ends, that it answers an octree where memory
//! is at hand, or that workers are at work at the same time.

ghost use Rattle.std.specs.Prelude.{◌<◌, ◌≤◌};

use crate::update;
use bh_model::UpdateCounts;
use build_gate::{Gate, MeetGate, OpenGate};
use build_workers::deal_in_turns;
use build_workers::trial::{are_one, cornered, points_at, scattered};
use free_tree::FreeYard;
use octant_code::Points;
use octree::Octree;
use std::alloc::Global;
use std::process::Abort;
use std::sync::Arc;
use std::test::Fail;
use std::thread::Threads;

/// So many workers update the octree of points, which is that of the points after the move. Both counts
/// of the yard rise by the bodies that leave.
fn updated<R: Threads + Sync + Abort, G: Gate>(
    rt: &R,
    alloc: Global,
    old: &Arc<Points>,
    new: &Arc<Points>,
    workers: u32,
    gate: &G,
) -> Result<UpdateCounts, Fail>
    requires { (0 < workers) × (workers ≤ 64) }
{
    if old.len() != new.len() {
        return Err(Fail::from("not as many points as before"));
    }
    let shares = deal_in_turns(alloc, workers, new.len())?;
    let before = Octree::of_points(alloc, old)?;
    let wanted = Octree::of_points(alloc, new)?;
    let mut yard = FreeYard::new();
    let (tree, counts) = update(rt, alloc, &mut yard, before, old, new, &shares, gate)?;
    assert!(rt; are_one(alloc, &tree, &wanted)?);
    assert_eq!(rt;
        (yard.published(), yard.changes()),
        (u64::from(counts.left), u64::from(counts.left))
    );
    Ok(counts)
}

/// One worker and three update the octree of points at these places, by which so many bodies leave and
/// so many cells are freed and taken.
fn counts_are<R: Threads + Sync + Abort>(
    rt: &R,
    alloc: Global,
    old: &[[u32; 3]],
    new: &[[u32; 3]],
    wanted: [u32; 3],
) -> Result<(), Fail> {
    let before = points_at(alloc, old)?;
    let after = points_at(alloc, new)?;
    let alone = updated(rt, alloc, &before, &after, 1, &OpenGate)?;
    assert_eq!(rt; [alone.left, alone.freed, alone.taken], wanted);
    assert!(rt; updated(rt, alloc, &before, &after, 3, &OpenGate)? == alone);
    Ok(())
}

#[test]
fn a_body_leaves_its_cell(rt: HostRuntime) -> Result<(), Fail> {
    let old = [[0, 0, 0], [0, 0, 1]];
    let new = [[0, 0, 0], [1_048_576, 0, 0]];
    counts_are(&rt, rt.alloc(), &old, &new, [1, 21, 1])
}

#[test]
fn two_bodies_change_places(rt: HostRuntime) -> Result<(), Fail> {
    let old = [[0, 0, 0], [1_048_576, 0, 0]];
    let new = [[1_048_576, 0, 0], [0, 0, 0]];
    counts_are(&rt, rt.alloc(), &old, &new, [2, 1, 1])
}

#[test]
fn no_body_moves(rt: HostRuntime) -> Result<(), Fail> {
    let places = [[0, 0, 0], [0, 0, 1], [1_048_576, 0, 0]];
    counts_are(&rt, rt.alloc(), &places, &places, [0, 0, 0])?;
    counts_are(&rt, rt.alloc(), &[], &[], [0, 0, 0])
}

#[test]
fn a_body_moves_in_the_cube_of_its_leaf(rt: HostRuntime) -> Result<(), Fail> {
    let old = [[0, 0, 0], [1_048_576, 0, 0]];
    let new = [[1_048_575, 7, 1_048_575], [1_048_576, 0, 0]];
    counts_are(&rt, rt.alloc(), &old, &new, [0, 0, 0])?;
    // a body alone stands at the root's word, whose cube is the whole one
    counts_are(
        &rt,
        rt.alloc(),
        &[[0, 0, 0]],
        &[[2_097_151, 5, 0]],
        [0, 0, 0],
    )
}

#[test]
fn all_bodies_move(rt: HostRuntime) -> Result<(), Fail> {
    let old = [[0, 0, 0], [1, 0, 0], [1_048_576, 0, 0], [0, 1_048_576, 0]];
    let new = [
        [0, 0, 1_048_576],
        [1_048_576, 0, 1_048_576],
        [0, 1_048_576, 1_048_576],
        [0, 1_048_577, 1_048_576],
    ];
    counts_are(&rt, rt.alloc(), &old, &new, [4, 21, 21])
}

#[test]
fn many_bodies_leave_for_a_corner(rt: HostRuntime) -> Result<(), Fail> {
    let alloc = rt.alloc();
    let old = scattered(alloc, 300)?;
    let new = cornered(alloc, 300)?;
    let alone = updated(&rt, alloc, &old, &new, 1, &OpenGate)?;
    assert!(rt; 100 < alone.left);
    assert!(rt; updated(&rt, alloc, &old, &new, 8, &OpenGate)? == alone);
    assert!(rt; updated(&rt, alloc, &old, &new, 64, &OpenGate)? == alone);
    Ok(())
}

#[test]
fn two_workers_meet_in_a_swap(rt: HostRuntime) -> Result<(), Fail> {
    let alloc = rt.alloc();
    let old = points_at(alloc, &[[0, 0, 0], [1_048_576, 0, 0]])?;
    let new = points_at(alloc, &[[1_048_576, 0, 0], [0, 0, 0]])?;
    let gate = MeetGate::new(0, 1);
    updated(&rt, alloc, &old, &new, 2, &gate)?;
    assert!(rt; !gate.missed());
    Ok(())
}
