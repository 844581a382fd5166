//! Two passes over one tree, and private octrees that are merged into it.

ghost use Rattle.std.specs.Prelude.{◌≡◌, ◌≢◌, ◌⊎◌, ℕ, ◌<◌, length, IfOk};
ghost use Rattle.octree.specs.Stored.{IsCanonical};
ghost use Rattle.tree_rule.specs.Words.{HasBody};

use crate::FreeYard;
use octant_code::{Distinct, OutOfMemory, Point, Points, Steps};
use octree::Octree;
use std::alloc::Global;
use std::marker::Brand;
use std::process::Abort;
use std::sync::Arc;
use std::sync::ledger::{Blank, Ledger};
use std::test::Fail;
use tree_rule::CELLS_OF_ONE;

/// The points of two bodies, which lie one step apart.
fn two_points(alloc: Global) -> Result<Arc<Points>, Fail> {
    let mut list = Vec::new(alloc);
    for x in 0..2 {
        let Some(point) = Point::new(x, 0, 0) else {
            return Err(Fail::from("a point past the cube"));
        };
        list.push(point)?;
    }
    match Points::test(alloc, &list)? {
        Distinct::Yes => Ok(Arc::new(alloc, Points::of(list))?),
        _ => Err(Fail::from("two points are one")),
    }
}

/// Two passes put a body in each. The second finds that of the first, of which it was told nothing.
fn finds_the_others_body<R: Abort, L: Ledger>(
    rt: &R,
    alloc: Global,
    blank: Blank,
) -> Result<(), Fail>
    requires name { blank.name ≡ L.name }
    requires parts { (blank.parts ≡ L.parts) × (0 < blank.parts) }
{
    let mut steps = Steps::<L>::new(blank);
    let points = two_points(alloc)?;
    if points.len() != 2 {
        return Err(Fail::from("not two points"));
    }
    let start = Octree::empty(alloc, 0)?;
    let mut yard = FreeYard::new();
    let (tree, mut first) = yard.open(alloc, &points, start, &[0, 1])?;
    let mut second = tree.split(&mut first, &[1])?;
    tree.insert(&mut first, 0, &mut steps);
    assert_eq!(rt; tree.find(&mut second, points.at(0), &mut steps), Some(0));
    assert_eq!(rt; tree.find(&mut second, points.at(1), &mut steps), None);
    tree.insert(&mut second, 1, &mut steps);
    tree.join(&mut first, second);
    let octree = yard.close(tree, first);
    assert_eq!(rt; octree.cells(), 21);
    assert_eq!(rt; octree.order(alloc)?.as_slice(), [0, 1].as_slice());
    assert_eq!(rt; (yard.published(), yard.changes()), (2, 2));
    Ok(())
}

#[test]
fn a_pass_finds_what_another_put_in(rt: HostRuntime) -> Result<(), Fail> {
    finds_the_others_body::<HostRuntime, Brand>(&rt, rt.alloc(), Blank::new(1))
}

/// The points of four bodies in two pairs, each of which lies one step apart.
fn four_points(alloc: Global) -> Result<Arc<Points>, Fail> {
    let mut list = Vec::new(alloc);
    for x in [0, 1, 1_048_576, 1_048_577] {
        let Some(point) = Point::new(x, 0, 0) else {
            return Err(Fail::from("a point past the cube"));
        };
        list.push(point)?;
    }
    match Points::test(alloc, &list)? {
        Distinct::Yes => Ok(Arc::new(alloc, Points::of(list))?),
        _ => Err(Fail::from("two points are one")),
    }
}

/// The octree of two bodies.
fn pair(alloc: Global, points: &Points, x: u32, n: u32) -> Result<Octree, OutOfMemory>
    requires first { x < length points.now }
    requires second { n < length points.now }
    requires apart { x ≢ n }
    ensures base { IfOk result (λ t. t.base ≡ 1) }
    ensures canonical { IfOk result (λ t. IsCanonical points.now t) }
    ensures bodies { IfOk result (λ t. (m : ℕ) → HasBody t.words m → (m ≡ x) ⊎ (m ≡ n)) }
{
    let mut tree = Octree::empty(alloc, 2 * CELLS_OF_ONE)?;
    tree.insert(points, x);
    tree.insert(points, n);
    Ok(tree)
}

/// A pass puts two bodies in, and another merges the octree of the two others.
fn merges_into_half_a_tree<R: Abort, L: Ledger>(
    rt: &R,
    alloc: Global,
    blank: Blank,
) -> Result<(), Fail>
    requires name { blank.name ≡ L.name }
    requires parts { (blank.parts ≡ L.parts) × (0 < blank.parts) }
{
    let mut steps = Steps::<L>::new(blank);
    let points = four_points(alloc)?;
    if points.len() != 4 {
        return Err(Fail::from("not four points"));
    }
    let start = Octree::empty(alloc, 0)?;
    let part = pair(alloc, &points, 0, 1)?;
    let mut yard = FreeYard::new();
    let (tree, mut first) = yard.open(alloc, &points, start, &[0, 1, 2, 3])?;
    let mut second = tree.split(&mut first, &[2, 3])?;
    tree.insert(&mut second, 2, &mut steps);
    tree.insert(&mut second, 3, &mut steps);
    tree.merge(&mut first, &part, &mut steps);
    tree.join(&mut first, second);
    let octree = yard.close(tree, first);
    assert_eq!(rt; octree.cells(), 41);
    assert_eq!(rt; octree.order(alloc)?.as_slice(), [0, 1, 2, 3].as_slice());
    assert_eq!(rt; (yard.published(), yard.changes()), (4, 3));
    Ok(())
}

#[test]
fn a_pass_merges_into_what_another_put_in(rt: HostRuntime) -> Result<(), Fail> {
    merges_into_half_a_tree::<HostRuntime, Brand>(&rt, rt.alloc(), Blank::new(1))
}

/// The first pass merges the octree of all bodies.
fn merges_all<R: Abort, L: Ledger>(rt: &R, alloc: Global, blank: Blank) -> Result<(), Fail>
    requires name { blank.name ≡ L.name }
    requires parts { (blank.parts ≡ L.parts) × (0 < blank.parts) }
{
    let mut steps = Steps::<L>::new(blank);
    let points = four_points(alloc)?;
    if points.len() != 4 {
        return Err(Fail::from("not four points"));
    }
    let start = Octree::empty(alloc, 0)?;
    let part = Octree::of_points(alloc, &points)?;
    let mut yard = FreeYard::new();
    let (tree, mut first) = yard.open(alloc, &points, start, &[0, 1, 2, 3])?;
    tree.merge(&mut first, &part, &mut steps);
    assert!(rt; steps.taken() <= 3);
    let octree = yard.close(tree, first);
    assert_eq!(rt; octree.cells(), 41);
    assert_eq!(rt; octree.order(alloc)?.as_slice(), [0, 1, 2, 3].as_slice());
    assert_eq!(rt; (yard.published(), yard.changes()), (4, 1));
    Ok(())
}

#[test]
fn one_publication_puts_all_into_an_empty_tree(rt: HostRuntime) -> Result<(), Fail> {
    merges_all::<HostRuntime, Brand>(&rt, rt.alloc(), Blank::new(1))
}
