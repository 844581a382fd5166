//! Two passes over one tree, private octrees that are merged into it, and trees that are opened with
//! regions.

ghost use Rattle.std.specs.Prelude.{◌≡◌, ◌≢◌, ◌⊎◌, ℕ, ◌<◌, ◌≤◌, length, IfOk};
ghost use Rattle.octree.specs.Stored.{root_word, IsCanonical};
ghost use Rattle.tree_rule.specs.Words.{HasBody};
ghost use Rattle.tree_rule.specs.declared.words.TheConstants.{MOST_CELLS};

use crate::{LockedYard, Pool};
use octant_code::{Distinct, OutOfMemory, Point, Points};
use octree::Octree;
use std::alloc::Global;
use std::process::Abort;
use std::sync::{Arc, Wait};
use std::test::Fail;
use tree_rule::CELLS_OF_ONE;

/// The points of two bodies, which lie one step apart.
fn two_points(alloc: Global) -> Result<Arc<Points>, Fail> {
    let mut list = Vec::new(alloc);
    for x in 0..2 {
        let Some(point) = Point::new(x, 0, 0) else {
            return Err(Fail::from("a point past the cube"));
        };
        list.push(point)?;
    }
    match Points::test(alloc, &list)? {
        Distinct::Yes => Ok(Arc::new(alloc, Points::of(list))?),
        _ => Err(Fail::from("two points are one")),
    }
}

/// Two passes put a body in each. The second finds that of the first, of which it was told nothing.
fn finds_the_others_body<R: Wait + Abort>(rt: &R, alloc: Global, pool: Pool) -> Result<(), Fail> {
    let points = two_points(alloc)?;
    if points.len() != 2 {
        return Err(Fail::from("not two points"));
    }
    let start = Octree::empty(alloc, 0)?;
    let mut yard = LockedYard::new();
    let (tree, mut first) = yard.open(alloc, &points, start, &[0, 1], pool)?;
    let mut second = tree.split(&mut first, &[1])?;
    tree.insert(rt, &mut first, 0);
    assert_eq!(rt; tree.find(&mut second, points.at(0)), Some(0));
    tree.insert(rt, &mut second, 1);
    tree.join(&mut first, second);
    let octree = yard.close(tree, first);
    assert_eq!(rt; octree.cells(), 21);
    assert_eq!(rt; octree.order(alloc)?.as_slice(), [0, 1].as_slice());
    Ok(())
}

#[test]
fn a_pass_finds_what_another_put_in(rt: HostRuntime) -> Result<(), Fail> {
    finds_the_others_body(&rt, rt.alloc(), Pool::Shared)?;
    finds_the_others_body(&rt, rt.alloc(), Pool::Regions)
}

/// The points of four bodies in two pairs, each of which lies one step apart.
fn four_points(alloc: Global) -> Result<Arc<Points>, Fail> {
    let mut list = Vec::new(alloc);
    for x in [0, 1, 1_048_576, 1_048_577] {
        let Some(point) = Point::new(x, 0, 0) else {
            return Err(Fail::from("a point past the cube"));
        };
        list.push(point)?;
    }
    match Points::test(alloc, &list)? {
        Distinct::Yes => Ok(Arc::new(alloc, Points::of(list))?),
        _ => Err(Fail::from("two points are one")),
    }
}

/// The octree of two bodies.
fn pair(alloc: Global, points: &Points, x: u32, n: u32) -> Result<Octree, OutOfMemory>
    requires first { x < length points.now }
    requires second { n < length points.now }
    requires apart { x ≢ n }
    ensures base { IfOk result (λ t. t.base ≡ 1) }
    ensures canonical { IfOk result (λ t. IsCanonical points.now t) }
    ensures bodies { IfOk result (λ t. (m : ℕ) → HasBody t.words m → (m ≡ x) ⊎ (m ≡ n)) }
{
    let mut tree = Octree::empty(alloc, 2 * CELLS_OF_ONE)?;
    tree.insert(points, x);
    tree.insert(points, n);
    Ok(tree)
}

/// A pass puts two bodies in, and another merges the octree of the two others.
fn merges_into_half_a_tree<R: Wait + Abort>(rt: &R, alloc: Global, pool: Pool) -> Result<(), Fail> {
    let points = four_points(alloc)?;
    if points.len() != 4 {
        return Err(Fail::from("not four points"));
    }
    let start = Octree::empty(alloc, 0)?;
    let part = pair(alloc, &points, 0, 1)?;
    let mut yard = LockedYard::new();
    let (tree, mut first) = yard.open(alloc, &points, start, &[0, 1, 2, 3], pool)?;
    let mut second = tree.split(&mut first, &[2, 3])?;
    tree.insert(rt, &mut second, 2);
    tree.insert(rt, &mut second, 3);
    tree.merge(rt, &mut first, &part);
    tree.join(&mut first, second);
    let octree = yard.close(tree, first);
    assert_eq!(rt; octree.cells(), 41);
    assert_eq!(rt; octree.order(alloc)?.as_slice(), [0, 1, 2, 3].as_slice());
    assert_eq!(rt; (yard.published(), yard.changes()), (4, 3));
    Ok(())
}

#[test]
fn a_pass_merges_into_what_another_put_in(rt: HostRuntime) -> Result<(), Fail> {
    merges_into_half_a_tree(&rt, rt.alloc(), Pool::Shared)?;
    merges_into_half_a_tree(&rt, rt.alloc(), Pool::Regions)
}

/// The first pass merges the octree of all bodies.
fn merges_all<R: Wait + Abort>(rt: &R, alloc: Global, pool: Pool) -> Result<(), Fail> {
    let points = four_points(alloc)?;
    if points.len() != 4 {
        return Err(Fail::from("not four points"));
    }
    let start = Octree::empty(alloc, 0)?;
    let part = Octree::of_points(alloc, &points)?;
    let mut yard = LockedYard::new();
    let (tree, mut first) = yard.open(alloc, &points, start, &[0, 1, 2, 3], pool)?;
    tree.merge(rt, &mut first, &part);
    let octree = yard.close(tree, first);
    assert_eq!(rt; octree.cells(), 41);
    assert_eq!(rt; octree.order(alloc)?.as_slice(), [0, 1, 2, 3].as_slice());
    assert_eq!(rt; (yard.published(), yard.changes()), (4, 1));
    Ok(())
}

#[test]
fn one_publication_puts_all_into_an_empty_tree(rt: HostRuntime) -> Result<(), Fail> {
    merges_all(&rt, rt.alloc(), Pool::Shared)?;
    merges_all(&rt, rt.alloc(), Pool::Regions)
}

/// An octree with no body, all of whose cells count as used.
fn bare(alloc: Global, cells: u32) -> Result<Octree, OutOfMemory>
    requires { cells ≤ MOST_CELLS }
    ensures base { IfOk result (λ t. t.base ≡ 1) }
    ensures empty { IfOk result (λ t. root_word t ≡ 0) }
{
    Ok(Octree::of_words(Octree::empty(alloc, cells)?.into_words()))
}

/// How many cells the octree of two bodies one step apart reaches, and how many it holds, where both are
/// put into an octree of so many cells.
fn cells_at_end<R: Wait>(rt: &R, alloc: Global, cells: u32) -> Result<(u32, u32), Fail>
    requires { cells ≤ MOST_CELLS }
{
    let (Some(one), Some(other)) = (Point::new(0, 0, 0), Point::new(0, 0, 1)) else {
        return Err(Fail::from("a point past the cube"));
    };
    let list = [one, other].to_vec(alloc)?;
    let Distinct::Yes = Points::test(alloc, &list)? else {
        return Err(Fail::from("two equal points"));
    };
    let points = Arc::new(alloc, Points::of(list))?;
    let mut yard = LockedYard::new();
    let (tree, mut pass) = yard.open(alloc, &points, bare(alloc, cells)?, &[0, 1], Pool::Regions)?;
    tree.insert(rt, &mut pass, 0);
    tree.insert(rt, &mut pass, 1);
    let end = yard.close(tree, pass);
    Ok((end.cells(), end.held()))
}

#[test]
fn unreachable_cells_are_handed_out_with_regions(rt: HostRuntime) -> Result<(), Fail> {
    assert_eq!(rt; cells_at_end(&rt, rt.alloc(), 42)?, (21, 42));
    assert_eq!(rt; cells_at_end(&rt, rt.alloc(), 50)?, (21, 50));
    Ok(())
}

#[test]
fn new_cells_are_handed_out_where_those_are_too_few(rt: HostRuntime) -> Result<(), Fail> {
    assert_eq!(rt; cells_at_end(&rt, rt.alloc(), 0)?, (21, 42));
    assert_eq!(rt; cells_at_end(&rt, rt.alloc(), 10)?, (21, 42));
    Ok(())
}
