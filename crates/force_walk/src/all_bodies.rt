//! The pulls on all bodies.

ghost use Rattle.std.specs.Prelude.{◌≡◌, ◌<◌, ℕ, All, Any, Contains, IfOk, length, map, slice_index_or};
ghost use Rattle.bh_model.specs.Pulls.{no_pull};
ghost use Rattle.bh_model.specs.declared.pull.Pull.{Pull};
ghost use Rattle.force_walk.specs.Placed.{ByPlace};
ghost use Rattle.force_walk.specs.Walks.{IsPullAmong, pulls};
ghost use Rattle.mass_moments.specs.Kept.{HaveMatter, matter_of};
ghost use Rattle.octree.specs.Stored.{IsOctreeOf, tree_of};
ghost use Rattle.scene_file.specs.Bodies.{sites_of};

use crate::lay::flat_table;
use crate::least::least_distances;
use crate::workers::{threads_for, work_zones};
use bh_model::{Law, Pull};
use build_gate::Gate;
use mass_moments::Moments;
use octant_code::OutOfMemory;
use octree::Octree;
use scene_file::Bodies;
use std::alloc::Global;
use std::thread::Threads;

/// The pull on each body, in the order of the bodies' numbers. Each zone has a worker, whose number is
/// the zone's place, and which walks the zone's bodies one after another; all workers are at work at the
/// same time. Where no two zones have bodies, all is worked by the calling thread. A worker passes the
/// gate at `Start`, at `AfterFirst` when its first body's pull is known, and at `End`. It takes memory for
/// the pulls twice, and for a table of the octree's cells and bodies, twice for what several workers lay.
///
/// # Errors
///
/// `OutOfMemory` for want of memory.
pub fn pulls<R: Threads + Sync, G: Gate>(
    rt: &R,
    alloc: Global,
    tree: &Octree,
    moments: &Moments,
    bodies: &Bodies,
    zones: &[Vec<u32>],
    law: &Law,
    gate: &G,
) -> Result<Vec<Pull>, OutOfMemory>
    requires octree { IsOctreeOf (sites_of bodies.now) tree.now }
    requires moments { HaveMatter tree.now (matter_of bodies.now) moments.now }
    requires inside { All (λ z. All (λ n. n < length bodies.now) z.items) zones.now }
    requires covered { (n : ℕ) → n < length bodies.now → Any (λ z. Contains z.items n) zones.now }
    ensures value { IfOk result (λ list. list.items ≡ pulls law.now (matter_of bodies.now) (length bodies.now) (tree_of tree.now)) }
    ensures small { IfOk result (λ list. All (IsPullAmong (length bodies.now)) list.items) }
{
    let count = bodies.len();
    let least = least_distances(law);
    let threads = threads_for(zones);
    let table = flat_table(rt, alloc, tree, moments, bodies, &least, threads)?;
    let lists = work_zones(rt, alloc, &table, law, bodies, zones, gate)?;
    let all = place_all(alloc, zones, lists.as_slice(), count)?;
    Ok(all)
}

/// The pulls on all bodies in the order of their numbers, of those on the bodies of each zone in the zone's
/// order.
fn place_all(
    alloc: Global,
    zones: &[Vec<u32>],
    lists: &[Vec<Pull>],
    count: u32,
) -> Result<Vec<Pull>, OutOfMemory>
    requires inside { All (λ z. All (λ n. n < count) z.items) zones.now }
    requires alike { ByPlace (λ z l. length l.items ≡ length z.items) zones.now lists.now }
    ensures long { IfOk result (λ all. length all.items ≡ count) }
    ensures placed { IfOk result (λ all. (f : ℕ → Pull) (n : ℕ) → ByPlace (λ z l. l.items ≡ map f z.items) zones.now lists.now → Any (λ z. Contains z.items n) zones.now → slice_index_or all.items n no_pull ≡ f n) }
{
    let mut all = vec![in alloc; Pull::none(); count as usize]?;
    place_zones(zones, lists, all.as_mut_slice());
    Ok(all)
}

/// Puts the pulls on the bodies of each zone at the bodies' numbers.
fn place_zones(zones: &[Vec<u32>], lists: &[Vec<Pull>], all: &mut [Pull])
    requires inside { All (λ z. All (λ n. n < length all.old) z.items) zones.now }
    requires alike { ByPlace (λ z l. length l.items ≡ length z.items) zones.now lists.now }
    ensures { (f : ℕ → Pull) (n : ℕ) → ByPlace (λ z l. l.items ≡ map f z.items) zones.now lists.now → Any (λ z. Contains z.items n) zones.now → slice_index_or all.new n no_pull ≡ f n }
{
    for w in 0..zones.len() {
        place_zone(zones[w].as_slice(), lists[w].as_slice(), all);
    }
}

/// Puts the pulls on the bodies of a zone, which stand in the zone's order, at the bodies' numbers.
fn place_zone(zone: &[u32], pulls: &[Pull], all: &mut [Pull])
    requires inside { All (λ n. n < length all.old) zone.now }
    requires alike { length pulls.now ≡ length zone.now }
    ensures told { (f : ℕ → Pull) → pulls.now ≡ map f zone.now → All (λ n. slice_index_or all.new n no_pull ≡ f n) zone.now }
    ensures kept { (f : ℕ → Pull) (n : ℕ) → pulls.now ≡ map f zone.now → slice_index_or all.old n no_pull ≡ f n → slice_index_or all.new n no_pull ≡ f n }
{
    for k in 0..zone.len() {
        all[zone[k] as usize] = pulls[k];
    }
}
