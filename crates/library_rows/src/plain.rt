//! The plain program and the real path: pulls by laws at both ends of their ranges over the greatest
//! masses and points at the corners of the cube, and the moment of all bodies and the zones by unequal
//! costs.

ghost use Rattle.std.specs.Prelude.{◌≡◌, ◌<◌, ◌≤◌, ◌^◌, All, IfOk, length, map};
ghost use Rattle.bh_model.specs.Bodies.{numbers};
ghost use Rattle.bh_model.specs.Plans.{HasWorkers};
ghost use Rattle.bh_model.specs.Zones.{IsCost};
ghost use Rattle.scene_file.specs.declared.bodies.Body.{Body};

use bh_model::{Builder, Law, Plan, Pull};
use bh_plain::{plain_moment, plain_pull, plain_zone};
use build_gate::OpenGate;
use costzones::zones;
use frame_core::Engine;
use locked_tree::LockedYard;
use mass_moments::{Moment, Moments, moments};
use octant_code::OutOfMemory;
use octree::{CellNo, Node, Octree};
use scene_file::{Bodies, Shape, made_scene, read_scene};
use std::alloc::Global;
use std::process::Abort;
use std::sync::Wait;
use std::test::Fail;
use std::thread::Threads;

/// The masses of bodies.
fn masses_of(alloc: Global, bodies: &Bodies) -> Result<Vec<u32>, OutOfMemory>
    ensures { IfOk result (λ masses. masses.items ≡ map (λ (b : Body). b.mass) bodies.now) }
{
    let mut masses = Vec::new(alloc);
    for n in 0..bodies.len() {
        masses.push(bodies.get(n).mass)?;
    }
    Ok(masses)
}

/// The numbers below a count.
pub fn numbers_below(alloc: Global, count: u32) -> Result<Vec<u32>, OutOfMemory>
    ensures { IfOk result (λ list. list.items ≡ numbers count) }
{
    let mut list = Vec::new(alloc);
    for n in 0..count {
        list.push(n)?;
    }
    Ok(list)
}

/// The pull on body `n`, by the plain program.
fn plain_on(alloc: Global, bodies: &Bodies, law: &Law, n: u32) -> Result<Pull, OutOfMemory>
    requires { n < length bodies.now }
{
    let count = bodies.len();
    let points = bodies.points(alloc)?;
    let masses = masses_of(alloc, bodies)?;
    let all = numbers_below(alloc, count)?;
    plain_pull(alloc, &points, &masses, law, n, &all)
}

/// Each body's pull and each zone are those of the plain program.
fn agrees<R: Abort + Threads + Wait + Sync>(
    rt: &R,
    alloc: Global,
    scene: &[u8],
    law: Law,
) -> Result<(), Fail> {
    let plan = Plan {
        builder: Builder::Orig,
        workers: 3,
        law,
    };
    let bodies = read_scene(alloc, scene)?.bodies;
    let mut engine = Engine::open(alloc, plan, read_scene(alloc, scene)?.bodies)?;
    engine.tree(rt, &mut LockedYard::new(), &OpenGate)?;
    let frame = engine.frame(rt, &OpenGate)?;
    assert_eq!(rt; frame.bodies, bodies.len());
    for n in 0..frame.bodies {
        assert_eq!(rt; engine.pull_of(n), plain_on(alloc, &bodies, &law, n)?);
    }
    Ok(())
}

/// Heavy bodies: pairs of neighbours in two corners of the cube, and a light one in the middle.
const HEAVY: &[u8] =
    b"body,4294967295,0,0,0\nbody,4294967295,1,0,0\nbody,4294967295,2097151,2097151,2097151\nbody,4294967295,2097151,2097151,2097150\nbody,1,1048576,1048575,7\nbody,77,1048575,0,2097151\n";

/// A law by its numbers.
fn law_of(theta_num: u32, theta_den: u32, eps2: u64, g: u64) -> Law
    requires theta_num { theta_num ≤ 65535 }
    requires theta_den { (1 ≤ theta_den) × (theta_den ≤ 65535) }
    requires eps2 { eps2 < 2 ^ 44 }
    requires g { g ≤ 2 ^ 40 }
{
    Law {
        theta_num,
        theta_den,
        eps2,
        g,
    }
}

#[test]
fn laws_without_gravitation_and_with_the_greatest(rt: HostRuntime) -> Result<(), Fail> {
    agrees(&rt, rt.alloc(), HEAVY, law_of(1, 1, 0, 0))?;
    agrees(&rt, rt.alloc(), HEAVY, law_of(1, 1, 0, 1))?;
    agrees(&rt, rt.alloc(), HEAVY, law_of(1, 1, 0, 1 << 40))
}

#[test]
fn laws_without_softening_and_with_the_greatest(rt: HostRuntime) -> Result<(), Fail> {
    agrees(&rt, rt.alloc(), HEAVY, law_of(1, 1, 0, 1 << 32))?;
    agrees(&rt, rt.alloc(), HEAVY, law_of(1, 1, 1, 1 << 32))?;
    agrees(&rt, rt.alloc(), HEAVY, law_of(1, 1, (1 << 44) - 1, 1 << 40))
}

#[test]
fn opening_angles_at_both_ends(rt: HostRuntime) -> Result<(), Fail> {
    agrees(&rt, rt.alloc(), HEAVY, law_of(0, 1, 0, 1 << 32))?;
    agrees(&rt, rt.alloc(), HEAVY, law_of(1, 65_535, 0, 1 << 32))?;
    agrees(&rt, rt.alloc(), HEAVY, law_of(3, 2, 0, 1 << 32))?;
    agrees(&rt, rt.alloc(), HEAVY, law_of(65_535, 1, 0, 1 << 32))
}

/// Unequal costs for so many bodies, from 1 to 65,536.
fn unequal_costs(alloc: Global, count: u32) -> Result<Vec<u32>, OutOfMemory>
    ensures count { IfOk result (λ costs. length costs.items ≡ count) }
    ensures costs { IfOk result (λ costs. All IsCost costs.items) }
{
    let mut costs = Vec::new(alloc);
    for n in 0..count {
        costs.push(1 + n.wrapping_mul(40_503) % 65_536)?;
    }
    Ok(costs)
}

/// The moment of all bodies, by the plain program.
fn plain_whole(alloc: Global, bodies: &Bodies, costs: &[u32]) -> Result<Moment, OutOfMemory>
    requires one_each { length costs.now ≡ length bodies.now }
    requires costs { All IsCost costs.now }
{
    let count = bodies.len();
    let points = bodies.points(alloc)?;
    let masses = masses_of(alloc, bodies)?;
    let all = numbers_below(alloc, count)?;
    plain_moment(alloc, &points, &masses, costs, &all)
}

/// The moment at a cell's number, where the table has one there.
fn moment_at(table: &Moments, c: CellNo) -> Option<Moment> {
    if (c.0 as usize) < table.len() {
        Some(table.of(c))
    } else {
        None
    }
}

#[test]
fn the_moment_of_all_bodies_by_unequal_costs(rt: HostRuntime) -> Result<(), Fail> {
    let alloc = rt.alloc();
    let bodies = made_scene(alloc, 300, 7, Shape::Uniform)?.bodies;
    let costs = unequal_costs(alloc, bodies.len())?;
    let points = bodies.points(alloc)?;
    let tree = Octree::of_points(alloc, &points)?;
    let table = moments(&rt, alloc, &tree, &bodies, &costs)?;
    let Node::Cell(root) = tree.root() else {
        return Err(Fail::from("a root that is no cell"));
    };
    assert_eq!(rt;
        moment_at(&table, root),
        Some(plain_whole(alloc, &bodies, &costs)?)
    );
    Ok(())
}

/// Zone `w` of all bodies, by the plain program.
fn plain_share(
    alloc: Global,
    bodies: &Bodies,
    costs: &[u32],
    workers: u32,
    w: u32,
) -> Result<Vec<u32>, OutOfMemory>
    requires one_each { length costs.now ≡ length bodies.now }
{
    let count = bodies.len();
    let points = bodies.points(alloc)?;
    let all = numbers_below(alloc, count)?;
    plain_zone(alloc, &points, costs, workers, w, &all)
}

/// The zones of some workers, by the real path.
pub fn real_zones(
    alloc: Global,
    bodies: &Bodies,
    costs: &[u32],
    workers: u32,
) -> Result<Vec<Vec<u32>>, OutOfMemory>
    requires one_each { length costs.now ≡ length bodies.now }
    requires costs { All IsCost costs.now }
    requires workers { HasWorkers workers }
{
    let points = bodies.points(alloc)?;
    let tree = Octree::of_points(alloc, &points)?;
    let table = moments(&alloc, alloc, &tree, bodies, costs)?;
    zones(alloc, &tree, &table, costs, workers)
}

#[test]
fn the_zones_of_unequal_costs(rt: HostRuntime) -> Result<(), Fail> {
    let alloc = rt.alloc();
    let bodies = made_scene(alloc, 300, 7, Shape::Corner)?.bodies;
    let costs = unequal_costs(alloc, bodies.len())?;
    let zones = real_zones(alloc, &bodies, &costs, 3)?;
    assert_eq!(rt; zones.len(), 3);
    for w in 0..3 {
        let plain = plain_share(alloc, &bodies, &costs, 3, w)?;
        assert!(rt; !plain.is_empty());
        assert_eq!(rt; zones[w as usize].as_slice(), plain.as_slice());
    }
    Ok(())
}
