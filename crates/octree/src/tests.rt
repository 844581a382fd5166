//! The cells of a few octrees: those that can't be reached, and those of keys.

use crate::{CellNo, Octree};
use octant_code::{Distinct, Point, Points};
use std::test::Fail;

#[test]
fn all_cells_of_an_empty_octree_are_free(rt: HostRuntime) -> Result<(), Fail> {
    let free = Octree::empty(rt.alloc(), 3)?.free_cells(rt.alloc())?;
    assert_eq!(rt; free.as_slice(), [0, 1, 2].as_slice());
    Ok(())
}

#[test]
fn the_cells_of_the_tree_are_not_free(rt: HostRuntime) -> Result<(), Fail> {
    let alloc = rt.alloc();
    let (Some(one), Some(other)) = (Point::new(0, 0, 0), Point::new(0, 0, 2)) else {
        return Err(Fail::from("a point past the cube"));
    };
    let list = [one, other].to_vec(alloc)?;
    let Distinct::Yes = Points::test(alloc, &list)? else {
        return Err(Fail::from("two equal points"));
    };
    let tree = Octree::of_points(alloc, &Points::of(list))?;
    assert_eq!(rt; tree.cells(), 20);
    assert_eq!(rt; tree.held(), 42);
    let free = tree.free_cells(alloc)?;
    assert_eq!(rt;
        (free.len(), free.first(), free.last()),
        (22, Some(&20), Some(&41))
    );
    let again = Octree::of_words(tree.into_words());
    assert_eq!(rt; again.spare(), 0);
    assert_eq!(rt; again.free_cells(alloc)?, free);
    Ok(())
}

#[test]
fn no_octrees_put_together_are_the_empty_octree(rt: HostRuntime) -> Result<(), Fail> {
    let alloc = rt.alloc();
    let list: Vec<Point> = Vec::new(alloc);
    let Distinct::Yes = Points::test(alloc, &list)? else {
        return Err(Fail::from("two equal points"));
    };
    let points = Points::of(list);
    let parts: Vec<Octree> = Vec::new(alloc);
    let tree = Octree::assembled(alloc, &points, &parts)?;
    assert_eq!(rt; (tree.base(), tree.held(), tree.depth()), (1, 0, 0));
    Ok(())
}

#[test]
fn cells_by_their_keys(rt: HostRuntime) -> Result<(), Fail> {
    let alloc = rt.alloc();
    let (Some(one), Some(other)) = (Point::new(0, 0, 0), Point::new(1 << 19, 0, 0)) else {
        return Err(Fail::from("a point past the cube"));
    };
    let list = [one, other].to_vec(alloc)?;
    let Distinct::Yes = Points::test(alloc, &list)? else {
        return Err(Fail::from("two equal points"));
    };
    let tree = Octree::of_points(alloc, &Points::of(list))?;
    assert_eq!(rt; tree.number_of(1), Some(CellNo(0)));
    assert_eq!(rt; tree.number_of(8), Some(CellNo(1)));
    assert_eq!(rt;
        (
            tree.number_of(0),
            tree.number_of(9),
            tree.number_of(64),
            tree.number_of(u64::MAX)
        ),
        (None, None, None, None)
    );
    Ok(())
}
