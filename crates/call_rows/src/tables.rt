//! Small tables of words, by hand and of built trees, and whether they stand for bodies.

use octree::Octree;
use scene_file::read_scene;
use std::alloc::Global;
use std::test::Fail;
use tree_rule::words_stand;

/// Two bodies in octants 0 and 4 of the whole cube.
const PAIR: &[u8] = b"body,1,0,0,0\nbody,1,1048576,0,0\n";

/// Whether words stand for bodies of the pair, with a list of cells.
fn pair_stands(alloc: Global, words: &[u64], cells: &[u32], bodies: &[u32]) -> Result<bool, Fail> {
    let points = read_scene(alloc, PAIR)?.bodies.points(alloc)?;
    Ok(words_stand(&points, words, cells, bodies))
}

#[test]
fn the_words_of_two_bodies_stand(rt: HostRuntime) -> Result<(), Fail> {
    let words = [2, 0, 0, 1, 0, 0, 0, 3, 0, 0, 0, 1, 0];
    assert!(rt; pair_stands(rt.alloc(), &words, &[0], &[0, 1])?);
    assert!(rt; pair_stands(rt.alloc(), &words, &[0], &[1, 0])?);
    Ok(())
}

#[test]
fn a_published_cell_with_one_body_is_refused(rt: HostRuntime) -> Result<(), Fail> {
    let words = [2, 0, 0, 1, 0, 0, 0, 0, 0, 0, 0, 1, 0];
    assert!(rt; !pair_stands(rt.alloc(), &words, &[0], &[0])?);
    Ok(())
}

#[test]
fn a_body_left_out_below_a_new_cell_is_refused(rt: HostRuntime) -> Result<(), Fail> {
    let words = [2, 0, 0, 0, 0, 0, 0, 3, 0, 0, 0, 1, 0];
    assert!(rt; !pair_stands(rt.alloc(), &words, &[0], &[0, 1])?);
    Ok(())
}

#[test]
fn a_body_named_twice_is_refused(rt: HostRuntime) -> Result<(), Fail> {
    let words = [2, 0, 0, 1, 0, 0, 0, 3, 3, 0, 0, 1, 0];
    assert!(rt; !pair_stands(rt.alloc(), &words, &[0], &[0, 1])?);
    Ok(())
}

#[test]
fn a_key_that_is_not_its_words_is_refused(rt: HostRuntime) -> Result<(), Fail> {
    let words = [2, 0, 0, 1, 0, 0, 0, 3, 0, 0, 0, 8, 0];
    assert!(rt; !pair_stands(rt.alloc(), &words, &[0], &[0, 1])?);
    Ok(())
}

#[test]
fn a_cell_number_that_stands_twice_is_refused(rt: HostRuntime) -> Result<(), Fail> {
    let words = [2, 0, 0, 1, 0, 0, 0, 3, 0, 0, 0, 1, 0];
    assert!(rt; !pair_stands(rt.alloc(), &words, &[0, 0], &[0, 1])?);
    Ok(())
}

/// Whether the words of a scene's built tree stand for all its bodies.
fn built_stands(alloc: Global, scene: &[u8]) -> Result<bool, Fail> {
    let points = read_scene(alloc, scene)?.bodies.points(alloc)?;
    let bodies: Vec<u32> = (0..points.len()).collect(alloc)?;
    let tree = Octree::of_points(alloc, &points)?;
    let cells: Vec<u32> = (0..tree.cells()).collect(alloc)?;
    let words = tree.into_words();
    Ok(words_stand(&points, &words, &cells, &bodies))
}

#[test]
fn the_words_of_built_trees_stand(rt: HostRuntime) -> Result<(), Fail> {
    assert!(rt; built_stands(rt.alloc(), b"")?);
    assert!(rt; built_stands(rt.alloc(), b"body,1,5,6,7\n")?);
    assert!(rt; built_stands(rt.alloc(), PAIR)?);
    assert!(rt; built_stands(rt.alloc(), b"body,1,0,0,0\nbody,1,0,0,1\n")?);
    let scene = b"body,1,9,0,0\nbody,1,0,0,0\nbody,1,0,1048576,0\nbody,1,2097151,0,7\n";
    assert!(rt; built_stands(rt.alloc(), scene)?);
    Ok(())
}
