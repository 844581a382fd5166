//! The parts of an octree that workers lay, all at the same time.

ghost use Rattle.std.specs.Prelude.{◌≡◌, ◌<◌, ℕ, All, IfOk, IfSome, List, OnOk, length};
ghost use Rattle.bh_model.specs.Moments.{Matter};
ghost use Rattle.force_walk.specs.Cubes.{IsTreeOfCube};
ghost use Rattle.force_walk.specs.Parts.{IsLaidTree, IsPart};
ghost use Rattle.mass_moments.specs.Kept.{HaveMatter, matter_of};
ghost use Rattle.octree.specs.Spot.{tree_under};
ghost use Rattle.octree.specs.Stored.{IsOctreeOf};
ghost use Rattle.scene_file.specs.Bodies.{sites_of};
ghost use Rattle.octree.specs.Subtree.{IsCellAt};

use crate::lay::lay_cell;
use crate::least::SIDES;
use crate::node::Laid;
use mass_moments::Moments;
use octant_code::{LEVELS, OutOfMemory};
use octree::{CellAt, Octree, Top};
use scene_file::Bodies;
use std::alloc::Global;
use std::thread;
use std::thread::Threads;

/// Below so many bodies one thread lays all.
const FEW: u32 = 4096;

/// A cell whose cube has side `2^down`, and what a worker laid of it.
#[derive(Drop)]
pub struct Part<'a> {
    pub cell: CellAt<'a>,
    pub down: u32,
    pub laid: Result<Laid, OutOfMemory>,
}

/// The next part, if it is this cell.
#[inline]
pub fn next_part<'p, 'a>(
    parts: &'p [Part<'a>],
    next: &mut usize,
    cell: &CellAt,
    down: u32,
) -> Option<&'p Part<'a>>
    requires { IsCellAt cell.now cell.now }
    ensures { (m : Matter) (most : ℕ) (least : List ℕ) → All (IsPart m most least cell.now.octree) parts.now → IfSome result (λ part. IfOk part.now.laid (IsLaidTree m least down (tree_under cell.now))) }
{
    if *next < parts.len() {
        let part = &parts[*next];
        if part.down == down && part.cell.number().0 == cell.number().0 {
            *next += 1;
            return Some(part);
        }
    }
    None
}

/// Appends the greatest cells of a cell's subtree whose bodies cost at most so much, in tree order, as parts
/// of which nothing is laid yet.
fn collect<'a>(
    cell: CellAt<'a>,
    moments: &Moments,
    bodies: &Bodies,
    least: &[u64; SIDES],
    down: u32,
    most_cost: u64,
    parts: &mut Vec<Part<'a>>,
) -> Result<(), OutOfMemory>
    requires cell { IsCellAt cell cell }
    requires cube { IsTreeOfCube (matter_of bodies.now) (length bodies.now) down (tree_under cell) }
    requires moments { HaveMatter cell.octree (matter_of bodies.now) moments.now }
    requires parts { All (IsPart (matter_of bodies.now) (length bodies.now) least.now cell.octree) parts.old.items }
    ensures { OnOk result (All (IsPart (matter_of bodies.now) (length bodies.now) least.now cell.entry.octree) parts.new.items) }
{
    if moments.of(cell.number()).cost <= most_cost {
        let laid = Err(OutOfMemory);
        parts.push(Part { cell, down, laid })?;
        return Ok(());
    }
    for k in 0..8 {
        if let Top::Cell(inner) = cell.child(k).top() {
            collect(inner, moments, bodies, least, down - 1, most_cost, parts)?;
        }
    }
    Ok(())
}

/// The parts of the octree of all bodies, several for each thread; none for one thread, and for few bodies.
pub fn parts_of<'a>(
    alloc: Global,
    tree: &'a Octree,
    moments: &Moments,
    bodies: &Bodies,
    least: &[u64; SIDES],
    threads: usize,
) -> Result<Vec<Part<'a>>, OutOfMemory>
    requires threads { 0 < threads }
    requires octree { IsOctreeOf (sites_of bodies.now) tree.now }
    requires moments { HaveMatter tree.now (matter_of bodies.now) moments.now }
    ensures { IfOk result (λ parts. All (IsPart (matter_of bodies.now) (length bodies.now) least.now tree.now) parts.items) }
{
    let mut parts: Vec<Part<'a>> = Vec::new(alloc);
    if threads > 1 && bodies.len() >= FEW {
        if let Top::Cell(cell) = tree.whole().top() {
            let most_cost = moments.of(cell.number()).cost / 8 / threads as u64;
            collect(cell, moments, bodies, least, LEVELS, most_cost, &mut parts)?;
        }
    }
    Ok(parts)
}

/// The nodes of a cell, and whose they are.
fn laid_cell(
    alloc: Global,
    cell: &CellAt,
    moments: &Moments,
    bodies: &Bodies,
    least: &[u64; SIDES],
    down: u32,
) -> Result<Laid, OutOfMemory>
    requires cell { IsCellAt cell.now cell.now }
    requires cube { IsTreeOfCube (matter_of bodies.now) (length bodies.now) down (tree_under cell.now) }
    requires moments { HaveMatter cell.now.octree (matter_of bodies.now) moments.now }
    ensures { IfOk result (IsLaidTree (matter_of bodies.now) least.now down (tree_under cell.now)) }
{
    let mut laid = Laid {
        nodes: Vec::new(alloc),
        owners: Vec::new(alloc),
    };
    lay_cell(cell, moments, bodies, least, down, &[], &mut 0, &mut laid)?;
    Ok(laid)
}

/// Workers lay all parts, in at most so many threads.
pub fn lay_parts<R: Threads + Sync>(
    rt: &R,
    alloc: Global,
    tree: &Octree,
    moments: &Moments,
    bodies: &Bodies,
    least: &[u64; SIDES],
    threads: usize,
    parts: &mut [Part],
)
    requires threads { 0 < threads }
    requires moments { HaveMatter tree.now (matter_of bodies.now) moments.now }
    requires parts { All (IsPart (matter_of bodies.now) (length bodies.now) least.now tree.now) parts.old }
    ensures { All (IsPart (matter_of bodies.now) (length bodies.now) least.now tree.now) parts.new }
{
    thread::for_each_mut(
        rt,
        parts,
        threads,
        &|_: usize, part: &mut Part|
            requires { HaveMatter tree.now (matter_of bodies.now) moments.now × IsPart (matter_of bodies.now) (length bodies.now) least.now tree.now part.old }
            ensures { IsPart (matter_of bodies.entry.now) (length bodies.entry.now) least.entry.now tree.entry.now part.new }
        {
            let _octree = tree.used();
            part.laid = laid_cell(alloc, &part.cell, moments, bodies, least, part.down);
        },
    );
}
