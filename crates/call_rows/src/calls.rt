//! The calls that may want memory, with memory at hand, and numbers of single calls.

use octant_code::{
    Distinct, NumberFault, OutOfMemory, Point, Points, isqrt, key_at, key_has, read_decimal,
    trunc_div,
};
use octree::{Node, Octree};
use scene_file::{Shape, made_scene, read_scene, scene_text};
use std::alloc::Global;
use std::test::Fail;

/// The point of three coordinates.
fn point(x: u32, y: u32, z: u32) -> Result<Point, Fail> {
    match Point::new(x, y, z) {
        Some(point) => Ok(point),
        None => Err(Fail::from("a point past the cube")),
    }
}

#[test]
fn the_first_point_that_stands_twice_is_told(rt: HostRuntime) -> Result<(), Fail> {
    let list = [point(0, 0, 0)?, point(1, 0, 0)?, point(0, 0, 0)?];
    assert_eq!(rt; Points::test(rt.alloc(), &list)?, Distinct::Same(0, 2));
    assert_eq!(rt; Points::test(rt.alloc(), &list[..2])?, Distinct::Yes);
    Ok(())
}

#[test]
fn an_octree_grows_as_room_is_reserved(rt: HostRuntime) -> Result<(), Fail> {
    let mut tree = Octree::empty(rt.alloc(), 0)?;
    assert_eq!(rt; tree.spare(), 0);
    assert_eq!(rt; tree.root(), Node::Empty);
    tree.reserve(21)?;
    assert_eq!(rt; tree.spare(), 21);
    Ok(())
}

#[test]
fn the_text_of_two_bodies_has_32_bytes(rt: HostRuntime) -> Result<(), Fail> {
    let alloc = rt.alloc();
    let text = b"body,1,0,0,0\nbody,1,1048576,0,0\n".as_slice();
    let written = scene_text(alloc, &read_scene(alloc, text)?)?;
    assert_eq!(rt; written.as_slice(), text);
    assert_eq!(rt; written.len(), 32);
    Ok(())
}

/// The text of a scene of two made bodies.
fn pair_text(alloc: Global, seed: u64, shape: Shape) -> Result<Vec<u8>, OutOfMemory> {
    scene_text(alloc, &made_scene(alloc, 2, seed, shape)?)
}

// The places were worked out by a program in another language, from the definitions alone.
#[test]
fn two_bodies_are_made_of_a_seed(rt: HostRuntime) -> Result<(), Fail> {
    let corner = b"body,1,0,0,0\nbody,2,20281,29658,14097\n".as_slice();
    assert!(rt; pair_text(rt.alloc(), 0, Shape::Corner)?.as_slice() == corner);
    let uniform = b"body,1,1,1,1\nbody,2,741177,783322,1685266\n".as_slice();
    assert!(rt; pair_text(rt.alloc(), 7, Shape::Uniform)?.as_slice() == uniform);
    Ok(())
}

/// The octree of the bodies of a scene.
fn octree_of(alloc: Global, scene: &[u8]) -> Result<Octree, Fail> {
    let points = read_scene(alloc, scene)?.bodies.points(alloc)?;
    Ok(Octree::of_points(alloc, &points)?)
}

#[test]
fn bodies_stand_in_tree_order(rt: HostRuntime) -> Result<(), Fail> {
    let scene = b"body,1,1048576,0,0\nbody,1,0,0,0\nbody,1,0,1048576,0\nbody,1,0,0,7\n";
    let tree = octree_of(rt.alloc(), scene)?;
    assert_eq!(rt; tree.order(rt.alloc())?.as_slice(), [1, 3, 2, 0].as_slice());
    Ok(())
}

#[test]
fn bodies_one_step_apart_in_z_are_parted_by_21_cells(rt: HostRuntime) -> Result<(), Fail> {
    let tree = octree_of(rt.alloc(), b"body,1,0,0,0\nbody,1,0,0,1\n")?;
    assert_eq!(rt; tree.cells(), 21);
    Ok(())
}

#[test]
fn bodies_one_step_apart_in_z_are_21_deep(rt: HostRuntime) -> Result<(), Fail> {
    let tree = octree_of(rt.alloc(), b"body,1,0,0,0\nbody,1,0,0,1\n")?;
    assert_eq!(rt; tree.depth(), 21);
    Ok(())
}

#[test]
fn the_key_of_a_point_at_the_last_level(rt: HostRuntime) -> Result<(), Fail> {
    assert_eq!(rt; key_at(point(0, 0, 1)?, 21), 9_223_372_036_854_775_809);
    Ok(())
}

#[test]
fn the_key_of_a_cube_has_the_points_in_it(rt: HostRuntime) -> Result<(), Fail> {
    assert!(rt; key_has(8, point(0, 0, 0)?));
    assert!(rt; !key_has(8, point(1_048_576, 0, 0)?));
    assert!(rt; key_has(1, point(1_048_576, 0, 0)?));
    Ok(())
}

#[test]
fn an_octree_is_made_again_of_its_words(rt: HostRuntime) -> Result<(), Fail> {
    let alloc = rt.alloc();
    let scene = b"body,1,1048576,0,0\nbody,1,0,0,0\nbody,1,0,1048576,0\nbody,1,0,0,7\n";
    let points = read_scene(alloc, scene)?.bodies.points(alloc)?;
    let words = Octree::of_points(alloc, &points)?.into_words();
    let again = Octree::of_words(words);
    assert_eq!(rt; again.spare(), 0);
    assert_eq!(rt; again.cells(), 19);
    assert_eq!(rt; again.order(alloc)?.as_slice(), [1, 3, 2, 0].as_slice());
    Ok(())
}

#[test]
fn decimals_up_to_nine(rt: HostRuntime) -> Result<(), Fail> {
    assert_eq!(rt; read_decimal(b"007", 9), Ok(7));
    assert_eq!(rt; read_decimal(b"10", 9), Err(NumberFault::TooLarge));
    assert_eq!(rt; read_decimal(b"", 9), Err(NumberFault::NotDigits));
    Ok(())
}

#[test]
fn a_root_between_two_squares(rt: HostRuntime) -> Result<(), Fail> {
    assert_eq!(rt; isqrt(1_489_641_334), 38_595);
    Ok(())
}

#[test]
fn a_quotient_is_cut_towards_zero(rt: HostRuntime) -> Result<(), Fail> {
    assert_eq!(rt; trunc_div(-7, 2), -3);
    Ok(())
}
