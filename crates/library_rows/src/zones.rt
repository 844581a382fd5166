//! Zones, read off one by one within their steps.

ghost use Rattle.std.specs.Prelude.{◌≡◌, ◌+◌, ◌*◌, ◌<◌, ◌≤◌, All, IfOk, length};
ghost use Rattle.bh_model.specs.Plans.{HasWorkers};
ghost use Rattle.mass_moments.specs.Kept.{IsCost};
ghost use Rattle.octree.specs.Stored.{IsOctreeOf};
ghost use Rattle.scene_file.specs.Bodies.{sites_of};

use costzones::zone;
use mass_moments::moments;
use octant_code::{OutOfMemory, Steps};
use octree::Octree;
use scene_file::{Bodies, read_scene};
use std::alloc::Global;
use std::marker::Brand;
use std::process::Abort;
use std::sync::ledger::{Blank, Ledger};
use std::test::Fail;

/// A cost of 1 for each body.
pub fn costs_of(alloc: Global, bodies: &Bodies) -> Result<Vec<u32>, OutOfMemory>
    ensures one_each { IfOk result (λ costs. length costs.items ≡ length bodies.now) }
    ensures costs { IfOk result (λ costs. All IsCost costs.items) }
{
    match vec![in alloc; 1u32; bodies.len() as usize] {
        Ok(costs) => Ok(costs),
        Err(_) => Err(OutOfMemory),
    }
}

/// The octree of bodies.
fn octree_of(alloc: Global, bodies: &Bodies) -> Result<Octree, OutOfMemory>
    ensures { IfOk result (λ t. IsOctreeOf (sites_of bodies.now) t) }
{
    let points = bodies.points(alloc)?;
    Octree::of_points(alloc, &points)
}

/// The zone of a worker over bodies of cost 1.
fn zone_of<L: Ledger>(
    alloc: Global,
    bodies: &Bodies,
    workers: u32,
    w: u32,
    steps: &mut Steps<L>,
) -> Result<Vec<u32>, OutOfMemory>
    requires workers { HasWorkers workers }
    requires worker { w < workers }
    ensures { IfOk result (λ z. steps.new ≤ steps.old + 21 * (length z.items + 1)) }
{
    let costs = costs_of(alloc, bodies)?;
    let tree = octree_of(alloc, bodies)?;
    let table = moments(&alloc, alloc, &tree, bodies, &costs)?;
    zone(alloc, &tree, &table, &costs, workers, w, steps)
}

/// Holds only for so many steps.
fn are_within<L: Ledger>(_steps: &Steps<L>, _most: u32)
    requires { _steps.now ≤ _most }
{}

/// One of eight zones has these bodies, and was read off within so many steps.
fn zone_is_within<R: Abort, L: Ledger>(
    rt: &R,
    alloc: Global,
    bodies: &Bodies,
    w: u32,
    wanted: &[u32],
    most: u32,
    blank: Blank,
) -> Result<(), Fail>
    requires name { blank.name ≡ L.name }
    requires parts { (blank.parts ≡ L.parts) × (0 < blank.parts) }
    requires worker { w < 8 }
    requires most { most ≡ 21 * (length wanted.now + 1) }
{
    let mut steps = Steps::<L>::new(blank);
    let zone = zone_of(alloc, bodies, 8, w, &mut steps)?;
    assert_eq!(rt; zone.len(), wanted.len());
    are_within(&steps, most);
    assert_eq!(rt; zone.as_slice(), wanted);
    Ok(())
}

#[test]
fn the_second_of_eight_workers_has_no_body_of_three(rt: HostRuntime) -> Result<(), Fail> {
    let scene = b"body,1,0,0,0\nbody,1,0,0,1048576\nbody,1,0,1048576,0\n";
    let bodies = read_scene(rt.alloc(), scene)?.bodies;
    zone_is_within::<HostRuntime, Brand>(&rt, rt.alloc(), &bodies, 1, &[], 21, Blank::new(1))
}

#[test]
fn the_third_of_eight_workers_has_the_second_body(rt: HostRuntime) -> Result<(), Fail> {
    let scene = b"body,1,0,0,0\nbody,1,0,0,1048576\nbody,1,0,1048576,0\n";
    let bodies = read_scene(rt.alloc(), scene)?.bodies;
    zone_is_within::<HostRuntime, Brand>(&rt, rt.alloc(), &bodies, 2, &[1], 42, Blank::new(1))
}
