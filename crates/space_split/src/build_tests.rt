//! Octrees that are built from pieces.

ghost use Rattle.bh_model.specs.Plans.{HasWorkers};

use crate::tests::{points_of, scattered};
use crate::{build, build_with_pieces, pieces};
use bh_model::Piece;
use bh_outside::MemorySink;
use build_gate::{MeetGate, OpenGate};
use octant_code::Points;
use octree::Octree;
use std::alloc::Global;
use std::marker::Sync;
use std::test::Fail;
use std::thread::Threads;
use tree_rule::{CELL_WORDS, KEY_PLACE};

/// The text of an octree.
fn text_of(alloc: Global, tree: &Octree) -> Result<Vec<u8>, Fail> {
    let mut sink = MemorySink::new(alloc, 65_536, 65_536, Vec::new(alloc))?;
    match tree.write_text(&mut sink) {
        Ok(()) => Ok(sink.bytes().to_vec(alloc)?),
        Err(_) => Err(Fail::from("a text that is too long")),
    }
}

/// Whether two octrees have as many cells, one order and one text.
fn are_one(alloc: Global, one: &Octree, other: &Octree) -> Result<bool, Fail> {
    let order = one.order(alloc)? == other.order(alloc)?;
    let text = text_of(alloc, one)? == text_of(alloc, other)?;
    Ok(order && text && one.cells() == other.cells())
}

/// Whether the cube of one key holds that of another, or is it.
fn is_prefix(one: u64, other: u64) -> bool {
    let mut rest = other;
    for _ in 0..21 {
        if rest > one {
            rest /= 8;
        }
    }
    rest == one
}

/// Where a cell stands: 0 above the pieces, and else 1 and the number of the piece that it lies in.
fn place_of(key: u64, found: &[Piece]) -> usize {
    for (i, piece) in found.iter().enumerate() {
        if is_prefix(piece.key, key) {
            return i.wrapping_add(1);
        }
    }
    0
}

/// Whether the cells of an octree come in the order of the pieces that they lie in, those above the
/// pieces first.
fn stand_by(words: &[u64], found: &[Piece]) -> bool {
    let mut last = 0;
    for cell in 0..words.len() / CELL_WORDS {
        let Some(key) = words.get(cell.saturating_mul(CELL_WORDS).saturating_add(KEY_PLACE)) else {
            return true;
        };
        let place = place_of(*key, found);
        if place < last {
            return false;
        }
        last = place;
    }
    true
}

/// Builds the octree of points, and compares it with that of one-thread insertion.
fn compare<R: Threads + Sync>(
    rt: &R,
    alloc: Global,
    points: &Points,
    workers: u32,
) -> Result<(), Fail>
    requires { HasWorkers workers }
{
    let (tree, count) = build_with_pieces(rt, alloc, points, workers, &OpenGate)?;
    let plain = Octree::of_points(alloc, points)?;
    if !are_one(alloc, &tree, &plain)? {
        return Err(Fail::from("another octree"));
    }
    let found = pieces(rt, alloc, points, workers)?;
    if found.len() != count as usize {
        return Err(Fail::from("another number of pieces"));
    }
    if stand_by(&tree.into_words(), &found) {
        Ok(())
    } else {
        Err(Fail::from("cells in another order"))
    }
}

#[test]
fn few_bodies_have_the_octree_of_insertion(rt: HostRuntime) -> Result<(), Fail> {
    let half = 1 << 20;
    let four = points_of(
        rt.alloc(),
        &[(0, 0, 0), (0, 0, half), (0, half, 0), (half, 0, 0)],
    )?;
    compare(&rt, rt.alloc(), &four, 3)?;
    let two = points_of(rt.alloc(), &[(0, 0, 1), (0, 0, 0)])?;
    compare(&rt, rt.alloc(), &two, 1)?;
    let none = points_of(rt.alloc(), &[])?;
    compare(&rt, rt.alloc(), &none, 64)
}

#[test]
fn many_bodies_have_the_octree_of_insertion(rt: HostRuntime) -> Result<(), Fail> {
    let triples = scattered(rt.alloc(), 4096)?;
    let points = points_of(rt.alloc(), &triples)?;
    compare(&rt, rt.alloc(), &points, 1)?;
    compare(&rt, rt.alloc(), &points, 64)
}

#[test]
fn workers_that_sort_have_the_order_of_insertion(rt: HostRuntime) -> Result<(), Fail> {
    let triples = scattered(rt.alloc(), 17_000)?;
    let points = points_of(rt.alloc(), &triples)?;
    let plain = Octree::of_points(rt.alloc(), &points)?;
    let tree = build(&rt, rt.alloc(), &points, 3, &OpenGate)?;
    let order = tree.order(rt.alloc())? == plain.order(rt.alloc())?;
    assert!(rt; order);
    assert!(rt; tree.cells() == plain.cells());
    Ok(())
}

#[test]
fn two_workers_meet_after_their_first_piece(rt: HostRuntime) -> Result<(), Fail> {
    let triples = scattered(rt.alloc(), 4096)?;
    let points = points_of(rt.alloc(), &triples)?;
    let gate = MeetGate::new(0, 1);
    build(&rt, rt.alloc(), &points, 2, &gate)?;
    assert!(rt; !gate.missed());
    Ok(())
}

/// Builds the octree of 300 points by eight workers 250 times, and compares the texts.
fn builds_have_one_text<R: Threads + Sync>(rt: &R, alloc: Global) -> Result<(), Fail> {
    let triples = scattered(alloc, 300)?;
    let points = points_of(alloc, &triples)?;
    let plain = Octree::of_points(alloc, &points)?;
    let wanted = text_of(alloc, &plain)?;
    for _ in 0..250 {
        let tree = build(rt, alloc, &points, 8, &OpenGate)?;
        if text_of(alloc, &tree)? != wanted {
            return Err(Fail::from("another text"));
        }
    }
    Ok(())
}

#[test]
fn a_thousand_builds_first_quarter(rt: HostRuntime) -> Result<(), Fail> {
    builds_have_one_text(&rt, rt.alloc())
}

#[test]
fn a_thousand_builds_second_quarter(rt: HostRuntime) -> Result<(), Fail> {
    builds_have_one_text(&rt, rt.alloc())
}

#[test]
fn a_thousand_builds_third_quarter(rt: HostRuntime) -> Result<(), Fail> {
    builds_have_one_text(&rt, rt.alloc())
}

#[test]
fn a_thousand_builds_fourth_quarter(rt: HostRuntime) -> Result<(), Fail> {
    builds_have_one_text(&rt, rt.alloc())
}
