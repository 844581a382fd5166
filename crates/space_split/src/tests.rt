//! Pieces that are worked out by hand.

ghost use Rattle.std.specs.Prelude.{◌<◌, ◌≤◌, All, IfOk, length};

use crate::pieces;
use bh_model::Piece;
use bh_plain::plain_pieces;
use octant_code::{Distinct, Point, Points};
use std::alloc::Global;
use std::test::Fail;

/// The points of a few triples of coordinates.
pub fn points_of(alloc: Global, triples: &[(u32, u32, u32)]) -> Result<Points, Fail> {
    let mut list: Vec<Point> = Vec::new(alloc);
    for (x, y, z) in triples {
        match Point::new(*x, *y, *z) {
            Some(point) => list.push(point)?,
            None => return Err(Fail::from("a point past the cube")),
        }
    }
    match Points::test(alloc, &list)? {
        Distinct::Yes => Ok(Points::of(list)),
        _ => Err(Fail::from("two equal points")),
    }
}

#[test]
fn four_bodies_in_four_octants(rt: HostRuntime) -> Result<(), Fail> {
    let half = 1 << 20;
    let points = points_of(
        rt.alloc(),
        &[(0, 0, 0), (0, 0, half), (0, half, 0), (half, 0, 0)],
    )?;
    let found = pieces(&rt, rt.alloc(), &points, 3)?;
    let wanted = [(8, 0), (9, 0), (10, 1), (12, 2)];
    assert_eq!(rt; found.len(), 4);
    for (i, (key, worker)) in wanted.iter().enumerate() {
        assert_eq!(rt;
            found[i],
            Piece {
                key: *key,
                count: 1,
                worker: *worker
            }
        );
    }
    Ok(())
}

#[test]
fn two_bodies_one_step_apart_in_z(rt: HostRuntime) -> Result<(), Fail> {
    let points = points_of(rt.alloc(), &[(0, 0, 1), (0, 0, 0)])?;
    let found = pieces(&rt, rt.alloc(), &points, 1)?;
    assert_eq!(rt; found.len(), 2);
    assert_eq!(rt;
        found[0],
        Piece {
            key: 1 << 63,
            count: 1,
            worker: 0
        }
    );
    assert_eq!(rt;
        found[1],
        Piece {
            key: (1 << 63) + 1,
            count: 1,
            worker: 0
        }
    );
    let none = points_of(rt.alloc(), &[])?;
    assert_eq!(rt; pieces(&rt, rt.alloc(), &none, 64)?.len(), 0);
    Ok(())
}

/// Many triples of coordinates: every other one is anywhere in the cube, and the others are crowded in
/// one corner.
pub fn scattered(alloc: Global, count: u32) -> Result<Vec<(u32, u32, u32)>, Fail> {
    let mut triples: Vec<(u32, u32, u32)> = Vec::new(alloc);
    for n in 0..count {
        let side = if n % 2 == 0 { 1 << 21 } else { 1 << 9 };
        let code = u64::from(n).wrapping_mul(0x9e37_79b9_7f4a_7c15);
        let x = (code % side) as u32;
        let y = (code / (1 << 21) % side) as u32;
        let z = (code / (1 << 42) % side) as u32;
        triples.push((x, y, z))?;
    }
    Ok(triples)
}

/// The numbers below a number.
fn first_numbers(alloc: Global, count: u32) -> Result<Vec<u32>, Fail>
    ensures { IfOk result (λ v. All (λ n. n < count) v.items × (length v.items ≤ count)) }
{
    let mut list: Vec<u32> = Vec::new(alloc);
    for n in 0..count {
        list.push(n)?;
    }
    Ok(list)
}

#[test]
fn many_bodies_have_the_pieces_of_the_plain_program(rt: HostRuntime) -> Result<(), Fail> {
    let triples = scattered(rt.alloc(), 4096)?;
    let points = points_of(rt.alloc(), &triples)?;
    let numbers = first_numbers(rt.alloc(), points.len())?;
    for workers in [1, 64] {
        let found = pieces(&rt, rt.alloc(), &points, workers)?;
        let plain = plain_pieces(rt.alloc(), &points, workers, &numbers)?;
        assert_eq!(rt; found.as_slice(), plain.as_slice());
    }
    Ok(())
}
