//! Texts and orders of a few octrees, and counts of updates, written out by hand.

ghost use Rattle.std.specs.Prelude.{◌<◌, All, IfOk, length};

use crate::{plain_blocks, plain_order, plain_text, plain_update_counts};
use octant_code::{Distinct, Point, Points};
use std::alloc::Global;
use std::test::Fail;

/// The points of a few triples of coordinates.
fn points_of(alloc: Global, triples: &[(u32, u32, u32)]) -> Result<Points, Fail> {
    let mut list: Vec<Point> = Vec::new(alloc);
    for (x, y, z) in triples {
        match Point::new(*x, *y, *z) {
            Some(point) => list.push(point)?,
            None => return Err(Fail::from("a point past the cube")),
        }
    }
    match Points::test(alloc, &list)? {
        Distinct::Yes => Ok(Points::of(list)),
        _ => Err(Fail::from("two equal points")),
    }
}

#[test]
fn two_bodies_at_opposite_ends(rt: HostRuntime) -> Result<(), Fail> {
    let last = (1 << 21) - 1;
    let points = points_of(rt.alloc(), &[(0, 0, 0), (last, last, last)])?;
    assert_eq!(rt; points.len(), 2);
    let text = plain_text(rt.alloc(), &points, &[0, 1])?;
    assert_eq!(rt; text.as_slice(), b"(b0......b1)".as_slice());
    Ok(())
}

#[test]
fn two_bodies_one_step_apart_in_z(rt: HostRuntime) -> Result<(), Fail> {
    let points = points_of(rt.alloc(), &[(0, 0, 0), (0, 0, 1)])?;
    assert_eq!(rt; points.len(), 2);
    let text = plain_text(rt.alloc(), &points, &[0, 1])?;
    assert_eq!(rt;
        text.as_slice(),
        b"(((((((((((((((((((((b0b1......).......).......).......).......).......).......).......).......).......).......).......).......).......).......).......).......).......).......).......).......)".as_slice()
    );
    Ok(())
}

#[test]
fn text_and_order_of_four_bodies(rt: HostRuntime) -> Result<(), Fail> {
    let half = 1 << 20;
    let points = points_of(
        rt.alloc(),
        &[(0, 0, half), (half, 0, 0), (half, 1 << 19, 0), (5, 5, 5)],
    )?;
    assert_eq!(rt; points.len(), 4);
    let text = plain_text(rt.alloc(), &points, &[0, 1, 2, 3])?;
    assert_eq!(rt; text.as_slice(), b"(b3b0..(b1.b2.....)...)".as_slice());
    let order = plain_order(rt.alloc(), &points, &[0, 1, 2, 3])?;
    assert_eq!(rt; order.as_slice(), [3, 0, 1, 2].as_slice());
    Ok(())
}

#[test]
fn some_of_the_bodies_and_none(rt: HostRuntime) -> Result<(), Fail> {
    let half = 1 << 20;
    let points = points_of(rt.alloc(), &[(5, 5, 5), (half, 0, 0), (half, 1 << 19, 0)])?;
    assert_eq!(rt; points.len(), 3);
    let text = plain_text(rt.alloc(), &points, &[2, 1])?;
    assert_eq!(rt; text.as_slice(), b"(....(b1.b2.....)...)".as_slice());
    let nothing = plain_text(rt.alloc(), &points, &[])?;
    assert_eq!(rt; nothing.as_slice(), b".".as_slice());
    let order = plain_order(rt.alloc(), &points, &[])?;
    assert_eq!(rt; order.len(), 0);
    Ok(())
}

/// Two pairs of bodies, far apart from one another.
#[test]
fn blocks_of_two_pairs(rt: HostRuntime) -> Result<(), Fail> {
    let far = 1 << 20;
    let points = points_of(
        rt.alloc(),
        &[(0, 0, 0), (1, 0, 0), (far, 0, 0), (far + 1, 0, 0)],
    )?;
    assert_eq!(rt; points.len(), 4);
    assert_eq!(rt; plain_blocks(rt.alloc(), &points, &[0, 1], &[2, 3])?, 1);
    assert_eq!(rt; plain_blocks(rt.alloc(), &points, &[0, 2], &[1, 3])?, 2);
    assert_eq!(rt; plain_blocks(rt.alloc(), &points, &[0, 1, 2, 3], &[])?, 1);
    assert_eq!(rt; plain_blocks(rt.alloc(), &points, &[], &[0])?, 0);
    Ok(())
}

/// A body that leaves a deep pair, a swap of two bodies, and two bodies that draw together.
#[test]
fn counts_of_updates(rt: HostRuntime) -> Result<(), Fail> {
    let alloc = rt.alloc();
    let far = 1 << 20;
    let pair = points_of(alloc, &[(0, 0, 0), (0, 0, 1)])?;
    let apart = points_of(alloc, &[(0, 0, 0), (far, 0, 0)])?;
    let swapped = points_of(alloc, &[(far, 0, 0), (0, 0, 0)])?;
    let eight = points_of(alloc, &[(0, 0, 0), (8, 0, 0)])?;
    let six = points_of(alloc, &[(1, 0, 0), (7, 0, 0)])?;
    assert_eq!(rt; counts_of(alloc, &pair, &apart)?, [1, 21, 1]);
    assert_eq!(rt; counts_of(alloc, &pair, &pair)?, [0, 0, 0]);
    assert_eq!(rt; counts_of(alloc, &apart, &swapped)?, [2, 1, 1]);
    assert_eq!(rt; counts_of(alloc, &eight, &six)?, [1, 18, 19]);
    Ok(())
}

/// The counts of an update of two bodies: those that leave, the freed and the taken cells.
fn counts_of(alloc: Global, old: &Points, new: &Points) -> Result<[u32; 3], Fail> {
    if old.len() != 2 || new.len() != 2 {
        return Err(Fail::from("not two points"));
    }
    let counts = plain_update_counts(alloc, old, new, &[0, 1])?;
    Ok([counts.left, counts.freed, counts.taken])
}
