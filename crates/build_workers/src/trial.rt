//! What the tests of builders share: a scene, and whether two octrees are one.

use bh_outside::MemorySink;
use octant_code::{Distinct, OutOfMemory, Point, Points};
use octree::Octree;
use std::alloc::Global;
use std::sync::Arc;
use std::test::Fail;

/// So many points: every second one in a corner of the cube, the others all over it.
///
/// # Errors
///
/// For want of memory, or where two points are one.
pub fn scattered(alloc: Global, count: u32) -> Result<Arc<Points>, Fail> {
    points_of(alloc, count, false)
}

/// So many points, all in a corner of the cube.
///
/// # Errors
///
/// For want of memory, or where two points are one.
pub fn cornered(alloc: Global, count: u32) -> Result<Arc<Points>, Fail> {
    points_of(alloc, count, true)
}

/// So many points, of which those of odd numbers, or all, are in a corner.
fn points_of(alloc: Global, count: u32, all: bool) -> Result<Arc<Points>, Fail> {
    let mut list = Vec::new(alloc);
    for n in 0..count {
        let code = (u64::from(n) + 1).wrapping_mul(0x9E37_79B9_7F4A_7C15);
        let near: u32 = if all || n % 2 == 1 { 9 } else { 0 };
        let x = (code >> 43) as u32 >> near;
        let y = ((code >> 22) % 2_097_152) as u32 >> near;
        let z = (code % 2_097_152) as u32 >> near;
        let Some(point) = Point::new(x, y, z) else {
            return Err(Fail::from("a point past the cube"));
        };
        list.push(point)?;
    }
    apart(alloc, list)
}

/// The points at these places.
///
/// # Errors
///
/// For want of memory, where a place is past the cube, or where two are one.
pub fn points_at(alloc: Global, places: &[[u32; 3]]) -> Result<Arc<Points>, Fail> {
    let mut list = Vec::new(alloc);
    for place in places {
        let Some(point) = Point::new(place[0], place[1], place[2]) else {
            return Err(Fail::from("a point past the cube"));
        };
        list.push(point)?;
    }
    apart(alloc, list)
}

/// The points of a list, no two of which are one.
fn apart(alloc: Global, list: Vec<Point>) -> Result<Arc<Points>, Fail> {
    match Points::test(alloc, &list)? {
        Distinct::Yes => Ok(Arc::new(alloc, Points::of(list))?),
        _ => Err(Fail::from("two points are one")),
    }
}

/// The text of an octree.
fn text_of(alloc: Global, tree: &Octree) -> Result<Vec<u8>, Fail> {
    let mut sink = MemorySink::new(alloc, 65_536, 65_536, Vec::new(alloc))?;
    match tree.write_text(&mut sink) {
        Ok(()) => Ok(sink.bytes().to_vec(alloc)?),
        Err(_) => Err(Fail::from("a text that is too long")),
    }
}

/// Whether two octrees have as many cells, one order and one text.
///
/// # Errors
///
/// For want of memory, or where a text has more than 65,536 bytes.
pub fn are_one(alloc: Global, one: &Octree, other: &Octree) -> Result<bool, Fail> {
    let order = one.order(alloc)? == other.order(alloc)?;
    let text = text_of(alloc, one)? == text_of(alloc, other)?;
    Ok(order && text && one.cells() == other.cells())
}
