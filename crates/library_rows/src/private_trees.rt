//! Workers that build octrees of their own bodies and merge them into one: how few steps and publications
//! that takes.

ghost use Rattle.std.specs.Prelude.{◌≡◌, ◌<◌, length};

use crate::plain::{numbers_below, real_zones};
use crate::zones::costs_of;
use bh_plain::plain_blocks;
use build_gate::OpenGate;
use build_workers::deal_to_owners;
use build_workers::trial::are_one;
use free_tree::FreeYard;
use octant_code::{OutOfMemory, Points, Steps};
use octree::Octree;
use partree_merge::{build, work};
use scene_file::{Bodies, Shape, made_scene, read_scene};
use std::alloc::Global;
use std::marker::Brand;
use std::process::Abort;
use std::sync::Arc;
use std::sync::ledger::{Blank, Ledger};
use std::test::Fail;
use std::thread::Threads;
use tree_rule::CELLS_OF_ONE;

/// The octree of all points, which one worker alone merges into an empty tree, and its steps.
fn merged_alone<L: Ledger>(
    alloc: Global,
    yard: &mut FreeYard,
    points: &Arc<Points>,
    blank: Blank,
) -> Result<(Octree, u64), OutOfMemory>
    requires name { blank.name ≡ L.name }
    requires parts { (blank.parts ≡ L.parts) × (0 < blank.parts) }
{
    let count = points.len();
    let share = numbers_below(alloc, count)?;
    let mut own = Octree::empty(alloc, CELLS_OF_ONE * count)?;
    let start = Octree::empty(alloc, 0)?;
    let (tree, mut pass) = yard.open(alloc, points, start, &share)?;
    let mut steps = Steps::<L>::new(blank);
    work(
        &tree, &mut pass, points, &share, &mut own, 0, &OpenGate, &mut steps,
    );
    let octree = yard.close(tree, pass);
    Ok((octree, steps.taken()))
}

#[test]
fn one_worker_publishes_four_bodies_at_once(rt: HostRuntime) -> Result<(), Fail> {
    let alloc = rt.alloc();
    let scene = b"body,1,0,0,0\nbody,1,0,0,1048576\nbody,1,0,1048576,0\nbody,1,1048576,0,0\n";
    let points = Arc::new(alloc, read_scene(alloc, scene)?.bodies.points(alloc)?)?;
    let mut yard = FreeYard::new();
    let (tree, steps) = merged_alone::<Brand>(alloc, &mut yard, &points, Blank::new(1))?;
    assert!(rt; 0 < steps && steps <= 3, "{steps} steps");
    assert_eq!(rt; yard.published(), 4);
    assert_eq!(rt; yard.changes(), 1);
    assert!(rt; are_one(alloc, &tree, &Octree::of_points(alloc, &points)?)?);
    Ok(())
}

/// How many workers build.
const WORKERS: u32 = 8;

/// In whose zone each of so many bodies stands; for one in none, how many workers there are.
fn owners_of(alloc: Global, count: u32, zones: &[Vec<u32>]) -> Result<Vec<u32>, OutOfMemory> {
    let mut owners = vec![in alloc; WORKERS; count as usize]?;
    for w in 0..WORKERS {
        if w as usize >= zones.len() {
            return Ok(owners);
        }
        for n in zones[w as usize].iter() {
            if (*n as usize) < owners.len() {
                owners[*n as usize] = w;
            }
        }
    }
    Ok(owners)
}

/// Workers build the octree of the points, each of the bodies of a zone. Answers how often they
/// published.
fn zones_agree<R: Abort + Threads + Sync>(
    rt: &R,
    alloc: Global,
    points: &Arc<Points>,
    zones: &[Vec<u32>],
    owners: &[u32],
) -> Result<u64, Fail> {
    if owners.len() != points.len() as usize {
        return Err(Fail::from("not one owner a body"));
    }
    let shares = deal_to_owners(alloc, WORKERS, owners)?;
    assert!(rt; shares.as_slice() == zones);
    let mut yard = FreeYard::new();
    let tree = build(rt, alloc, &mut yard, points, &shares, &OpenGate)?;
    let wanted = Octree::of_points(alloc, points)?;
    assert!(rt; are_one(alloc, &tree, &wanted)?);
    assert_eq!(rt; yard.published(), u64::from(points.len()));
    Ok(yard.changes())
}

/// The blocks of a worker's bodies against those of all others, by the plain program.
fn blocks_of(alloc: Global, points: &Points, owners: &[u32], w: u32) -> Result<u64, OutOfMemory>
    requires { length owners.now ≡ length points.now }
{
    let mut mine = Vec::new(alloc);
    let mut others = Vec::new(alloc);
    for n in 0..points.len() {
        if owners[n as usize] == w {
            mine.push(n)?;
        } else {
            others.push(n)?;
        }
    }
    plain_blocks(alloc, points, &mine, &others)
}

/// The blocks of all workers' bodies, each worker's against those of the others.
fn blocks_of_all(alloc: Global, points: &Points, owners: &[u32]) -> Result<u64, Fail> {
    if owners.len() != points.len() as usize {
        return Err(Fail::from("not one owner a body"));
    }
    let mut sum: u64 = 0;
    for w in 0..WORKERS {
        sum = sum.saturating_add(blocks_of(alloc, points, owners, w)?);
    }
    Ok(sum)
}

/// The zones of bodies of cost 1, each as its bodies' numbers ascend.
fn zones_of(alloc: Global, bodies: &Bodies) -> Result<Vec<Vec<u32>>, OutOfMemory> {
    let costs = costs_of(alloc, bodies)?;
    let mut zones = Vec::new(alloc);
    for zone in real_zones(alloc, bodies, &costs, WORKERS)? {
        let mut ascending = zone;
        ascending.sort_unstable();
        zones.push(ascending)?;
    }
    Ok(zones)
}

/// The zones of 5,000 made bodies, which so many blocks make up, are merged by at most as many
/// publications.
fn zones_have_blocks<R: Abort + Threads + Sync>(
    rt: &R,
    alloc: Global,
    shape: Shape,
    wanted: u64,
) -> Result<(), Fail> {
    let bodies = made_scene(alloc, 5_000, 7, shape)?.bodies;
    let points = Arc::new(alloc, bodies.points(alloc)?)?;
    let zones = zones_of(alloc, &bodies)?;
    let owners = owners_of(alloc, points.len(), &zones)?;
    let changes = zones_agree(rt, alloc, &points, &zones, &owners)?;
    let blocks = blocks_of_all(alloc, &points, &owners)?;
    assert_eq!(rt; blocks, wanted);
    assert!(rt; 8 <= changes && changes <= blocks, "{changes} publications");
    Ok(())
}

// The numbers of blocks, far below those of the bodies, were worked out by a program in another
// language, from the definitions alone.
#[test]
fn eight_zones_of_5000_bodies_have_few_blocks(rt: HostRuntime) -> Result<(), Fail> {
    zones_have_blocks(&rt, rt.alloc(), Shape::Uniform, 136)?;
    zones_have_blocks(&rt, rt.alloc(), Shape::Corner, 91)
}
