//! The flat table is laid.

ghost use Rattle.std.specs.Prelude.{◌≡◌, ◌<◌, ◌≤◌, ◌-◌, ◌^◌, ◌∷◌, [], All, IfOk, OnOk, length, slice_index_or, slice_set};
ghost use Rattle.octant_code.specs.declared.limits.TheConstants.{LEVELS};
ghost use Rattle.force_walk.specs.Cubes.{IsTreeOfCube};
ghost use Rattle.force_walk.specs.Parts.{IsPart};
ghost use Rattle.force_walk.specs.Flat.{AreAdded, AreFound, body_node, flat, kept_node, no_node, owners};
ghost use Rattle.mass_moments.specs.Kept.{HaveMatter, matter_of, moment_at};
ghost use Rattle.octree.specs.Stored.{IsOctreeOf, tree_of};
ghost use Rattle.octree.specs.Spot.{tree_under};
ghost use Rattle.octree.specs.Subtree.{IsCellAt};
ghost use Rattle.scene_file.specs.Bodies.{sites_of};

use crate::least::SIDES;
use crate::node::{FlatTable, Laid, WalkNode};
use crate::parts::{Part, lay_parts, next_part, parts_of};
use mass_moments::Moments;
use octant_code::{LEVELS, OutOfMemory};
use octree::{CellAt, CellNo, Octree, Subtree, Top};
use scene_file::Bodies;
use std::alloc::Global;
use std::thread::Threads;

/// Appends a node, and whose it is.
#[inline]
fn push(laid: &mut Laid, node: WalkNode, owner: u32) -> Result<(), OutOfMemory>
    ensures { OnOk result (AreAdded (node ∷ []) (owner ∷ []) laid.old laid.new) }
{
    laid.nodes.push(node)?;
    laid.owners.push(owner)?;
    Ok(())
}

/// The node of a body.
fn node_of_body(bodies: &Bodies, n: u32) -> WalkNode
    requires { n < length bodies.now }
    ensures { result ≡ body_node (matter_of bodies.now) n }
{
    let body = bodies.get(n);
    WalkNode {
        at: body.at,
        skip: 1,
        least: 1,
        mass: u64::from(body.mass),
    }
}

/// The node of a cell below which nothing is laid yet.
fn node_of_cell(moments: &Moments, c: CellNo, least: u64) -> WalkNode
    requires inside { c.0 < length moments.now }
    requires massive { 0 < (moment_at moments.now c.0).mass }
    ensures { result ≡ kept_node moments.now c.0 least 1 }
{
    WalkNode {
        at: moments.centre(c),
        skip: 1,
        least,
        mass: moments.of(c).mass,
    }
}

/// Sets how many nodes a cell has: all from its own on.
fn close(nodes: &mut Vec<WalkNode>, at: usize)
    requires within { at < length nodes.old.items }
    requires few { length nodes.old.items - at < 2 ^ 32 }
    ensures { nodes.new.items ≡ slice_set nodes.old.items at (record (slice_index_or nodes.old.items at no_node) { skip = length nodes.old.items - at }) }
{
    let skip = (nodes.len() - at) as u32;
    nodes[at].skip = skip;
}

/// Appends what is laid elsewhere.
fn append(laid: &mut Laid, more: &Laid) -> Result<(), OutOfMemory>
    ensures { OnOk result (AreAdded more.now.nodes.items more.now.owners.items laid.old laid.new) }
{
    laid.nodes.extend_from_slice(more.nodes.as_slice())?;
    laid.owners.extend_from_slice(more.owners.as_slice())?;
    Ok(())
}

/// Appends the nodes of a cell, whose cube has side `2^down`, and of what is below it. Of the cells that are
/// parts, which come in tree order from the next on, it takes what workers laid.
pub fn lay_cell(
    cell: &CellAt,
    moments: &Moments,
    bodies: &Bodies,
    least: &[u64; SIDES],
    down: u32,
    parts: &[Part],
    next: &mut usize,
    laid: &mut Laid,
) -> Result<(), OutOfMemory>
    requires cell { IsCellAt cell.now cell.now }
    requires cube { IsTreeOfCube (matter_of bodies.now) (length bodies.now) down (tree_under cell.now) }
    requires moments { HaveMatter cell.now.octree (matter_of bodies.now) moments.now }
    requires parts { All (IsPart (matter_of bodies.now) (length bodies.now) least.now cell.now.octree) parts.now }
    ensures { OnOk result (AreAdded (flat (matter_of bodies.now) least.now down (tree_under cell.now)) (owners (tree_under cell.now)) laid.old laid.new) }
{
    if let Some(part) = next_part(parts, next, cell, down) {
        let Ok(done) = &part.laid else {
            return Err(OutOfMemory);
        };
        return append(laid, done);
    }
    let own = laid.nodes.len();
    let node = node_of_cell(moments, cell.number(), least[down as usize]);
    push(laid, node, 0)?;
    for k in 0..8 {
        match cell.child(k).top() {
            Top::Nothing => {}
            Top::Body(n) => push(laid, node_of_body(bodies, n), n + 1)?,
            Top::Cell(inner) => lay_cell(
                &inner,
                moments,
                bodies,
                least,
                down - 1,
                parts,
                next,
                laid,
            )?,
        }
    }
    close(&mut laid.nodes, own);
    Ok(())
}

/// Appends the nodes of a subtree, whose cube has side `2^down`, with what workers laid of its parts.
fn lay(
    at: &Subtree,
    moments: &Moments,
    bodies: &Bodies,
    least: &[u64; SIDES],
    down: u32,
    parts: &[Part],
    laid: &mut Laid,
) -> Result<(), OutOfMemory>
    requires cube { IsTreeOfCube (matter_of bodies.now) (length bodies.now) down (tree_under at.now) }
    requires moments { HaveMatter at.now.octree (matter_of bodies.now) moments.now }
    requires parts { All (IsPart (matter_of bodies.now) (length bodies.now) least.now at.now.octree) parts.now }
    ensures { OnOk result (AreAdded (flat (matter_of bodies.now) least.now down (tree_under at.now)) (owners (tree_under at.now)) laid.old laid.new) }
{
    match at.top() {
        Top::Nothing => Ok(()),
        Top::Body(n) => push(laid, node_of_body(bodies, n), n + 1),
        Top::Cell(cell) => {
            let mut next = 0;
            lay_cell(&cell, moments, bodies, least, down, parts, &mut next, laid)
        }
    }
}

/// The place of each body's own node, by the body's number.
fn places_of(alloc: Global, owners: &[u32], count: u32) -> Result<Vec<u32>, OutOfMemory>
    requires few { length owners.now < 2 ^ 32 }
    requires known { All (λ owner. owner ≤ count) owners.now }
    ensures long { IfOk result (λ places. length places.items ≡ count) }
    ensures found { IfOk result (λ places. AreFound owners.now places.items) }
{
    let mut places = vec![in alloc; 0u32; count as usize]?;
    for at in 0..owners.len() {
        let owner = owners[at];
        if owner > 0 {
            places[owner as usize - 1] = at as u32;
        }
    }
    Ok(places)
}

/// The flat table of the canonical octree of all bodies, which is laid in at most so many threads. Room for
/// all nodes is taken at once.
pub fn flat_table<R: Threads + Sync>(
    rt: &R,
    alloc: Global,
    tree: &Octree,
    moments: &Moments,
    bodies: &Bodies,
    least: &[u64; SIDES],
    threads: usize,
) -> Result<FlatTable, OutOfMemory>
    requires threads { 0 < threads }
    requires octree { IsOctreeOf (sites_of bodies.now) tree.now }
    requires moments { HaveMatter tree.now (matter_of bodies.now) moments.now }
    ensures nodes { IfOk result (λ table. table.nodes.items ≡ flat (matter_of bodies.now) least.now LEVELS (tree_of tree.now)) }
    ensures long { IfOk result (λ table. length table.places.items ≡ length bodies.now) }
    ensures places { IfOk result (λ table. AreFound (owners (tree_of tree.now)) table.places.items) }
{
    let mut parts = parts_of(alloc, tree, moments, bodies, least, threads)?;
    lay_parts(
        rt,
        alloc,
        tree,
        moments,
        bodies,
        least,
        threads,
        parts.as_mut_slice(),
    );
    let most = tree.used() as usize + bodies.len() as usize;
    let mut laid = Laid {
        nodes: Vec::with_capacity(alloc, most)?,
        owners: Vec::with_capacity(alloc, most)?,
    };
    lay(
        &tree.whole(),
        moments,
        bodies,
        least,
        LEVELS,
        parts.as_slice(),
        &mut laid,
    )?;
    let places = places_of(alloc, laid.owners.as_slice(), bodies.len())?;
    Ok(FlatTable {
        nodes: laid.nodes,
        places,
    })
}
