//! The workers' shares of the pieces, and what they build.

ghost use Rattle.std.specs.Prelude.{◌≡◌, ◌<◌, ◌≤◌, All, IfOk, flat_map, length, slice_index_or};
ghost use Rattle.std.specs.List.{AllZip};
ghost use Rattle.space_split.specs.Bodies.{AreCubesIn, AreUnder};
ghost use Rattle.space_split.specs.Parts.{AreBuilt, AreJoined, IsPartOf};

use crate::codes::Coded;
use crate::cube::Cube;
use bh_model::Piece;
use build_gate::{Gate, GatePoint};
use octant_code::{OutOfMemory, Points};
use octree::Octree;
use std::alloc::Global;
use std::thread;
use std::thread::Threads;
use tree_rule::CELLS_OF_ONE;

/// Where the pieces of a worker and of those before it end, from a place on.
fn end_of(pieces: &[Piece], start: usize, worker: u32) -> usize
    requires { start ≤ length pieces.now }
    ensures from { start ≤ result }
    ensures within { result ≤ length pieces.now }
    ensures others { (d : _) → result < length pieces.now → worker < (slice_index_or pieces.now result d).worker }
{
    let mut end = start;
    while end < pieces.len() && pieces[end].worker <= worker {
        end += 1;
    }
    end
}

/// The cubes of each worker's pieces.
pub fn deal_shares<'a>(
    alloc: Global,
    cubes: &'a [Cube],
    pieces: &[Piece],
    workers: u32,
) -> Result<Vec<&'a [Cube]>, OutOfMemory>
    requires some { 0 < workers }
    requires alike { length cubes.now ≡ length pieces.now }
    requires workers { All (λ p. p.worker < workers) pieces.now }
    ensures count { IfOk result (λ v. length v.items ≡ workers) }
    ensures whole { IfOk result (λ v. flat_map (λ s. s.now) v.items ≡ cubes.now) }
{
    let mut shares: Vec<&'a [Cube]> = Vec::with_capacity(alloc, workers as usize)?;
    let mut start = 0;
    for worker in 0..workers {
        let end = end_of(pieces, start, worker);
        shares.push(&cubes[start..end])?;
        start = end;
    }
    Ok(shares)
}

/// What the worker of each share builds, all at the same time, each in a thread of its own; one worker
/// alone is at work in the calling thread.
pub fn work_all<R: Threads + Sync, G: Gate>(
    rt: &R,
    alloc: Global,
    points: &Points,
    bodies: &[Coded],
    shares: &[&[Cube]],
    gate: &G,
) -> Result<Vec<Result<Vec<Octree>, OutOfMemory>>, OutOfMemory>
    requires few { length shares.now ≤ 64 }
    requires cubes { All (λ s. AreCubesIn points.now bodies.now s.now) shares.now }
    ensures { IfOk result (λ v. AllZip (λ s r. IfOk r (λ parts. AreBuilt points.now bodies.now s.now parts.items)) shares.now v.items) }
{
    let built = thread::map_indices(
        rt,
        alloc,
        shares.len(),
        &|i: usize| -> Result<Vec<Octree>, OutOfMemory>
            requires { (i < length shares.now) × (length shares.now ≤ 64) × All (λ s. AreCubesIn points.now bodies.now s.now) shares.now }
            ensures { IfOk result (λ v. (d : _) → AreBuilt points.entry.now bodies.entry.now (slice_index_or shares.entry.now i d).now v.items) }
        { build_share(alloc, points, bodies, shares[i], i as u32, gate) },
    )?;
    Ok(built)
}

/// The octrees of a worker's share. The worker passes the gate.
fn build_share<G: Gate>(
    alloc: Global,
    points: &Points,
    bodies: &[Coded],
    cubes: &[Cube],
    worker: u32,
    gate: &G,
) -> Result<Vec<Octree>, OutOfMemory>
    requires { AreCubesIn points.now bodies.now cubes.now }
    ensures { IfOk result (λ v. AreBuilt points.now bodies.now cubes.now v.items) }
{
    gate.pass(worker, GatePoint::Start);
    let parts = build_parts(alloc, points, bodies, cubes, worker, gate);
    gate.pass(worker, GatePoint::End);
    parts
}

/// The octrees of cubes, in their order. The worker passes the gate when the first is built.
fn build_parts<G: Gate>(
    alloc: Global,
    points: &Points,
    bodies: &[Coded],
    cubes: &[Cube],
    worker: u32,
    gate: &G,
) -> Result<Vec<Octree>, OutOfMemory>
    requires { AreCubesIn points.now bodies.now cubes.now }
    ensures { IfOk result (λ v. AreBuilt points.now bodies.now cubes.now v.items) }
{
    let mut parts: Vec<Octree> = Vec::with_capacity(alloc, cubes.len())?;
    for (i, cube) in cubes.iter().enumerate() {
        let start = cube.start as usize;
        let end = start + cube.count as usize;
        let part = build_part(alloc, points, &bodies[start..end], cube.key)?;
        parts.push(part)?;
        if i == 0 {
            gate.pass(worker, GatePoint::AfterFirst);
        }
    }
    Ok(parts)
}

/// The octree of the cube of a key, into which bodies are inserted one after another. They come in the
/// order of their points' keys, so that cells lie in memory much as walks through the tree meet them.
fn build_part(
    alloc: Global,
    points: &Points,
    bodies: &[Coded],
    key: u64,
) -> Result<Octree, OutOfMemory>
    requires { AreUnder points.now key bodies.now }
    ensures { IfOk result (IsPartOf points.now key bodies.now) }
{
    let mut tree = Octree::under(alloc, key, bodies.len() as u32 + CELLS_OF_ONE)?;
    for coded in bodies {
        tree.reserve(CELLS_OF_ONE)?;
        tree.insert(points, coded.body);
    }
    Ok(tree)
}

/// The octrees that all workers built, in the order of the workers.
pub fn all_parts(
    alloc: Global,
    built: Vec<Result<Vec<Octree>, OutOfMemory>>,
) -> Result<Vec<Octree>, OutOfMemory>
    ensures { IfOk result (λ v. AreJoined (λ w. w.items) built.items v.items) }
{
    let mut all: Vec<Octree> = Vec::new(alloc);
    for parts in built {
        let mut parts = parts?;
        all.append(&mut parts)?;
    }
    Ok(all)
}
