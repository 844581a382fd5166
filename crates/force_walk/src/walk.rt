//! The walk of one body over the flat table.

ghost use Rattle.std.specs.Prelude.{◌≡◌, ◌+◌, ◌-◌, ◌*◌, ◌<◌, ◌^◌, All, length};
ghost use Rattle.octant_code.specs.Space.{squared_distance};
ghost use Rattle.bh_model.specs.Pulls.{IsPullLaw, IsSmall, add_pull, term};
ghost use Rattle.force_walk.specs.Flat.{IsLaid, holds, is_opened, walked};

use crate::node::WalkNode;
use crate::short_pull::ShortPull;
use crate::term::short_term;
use bh_model::{Law, Pull, plain_term};
use octant_code::{Point, squared_distance};

/// Whether a place is one of so many from another on.
#[inline]
fn holds(at: usize, skip: u32, place: usize) -> bool
    requires { at < 2 ^ 32 }
    ensures { result ≡ holds at skip place }
{
    place.wrapping_sub(at) < skip as usize
}

/// Whether a body whose own node stands at a place goes on from a node at another, which is at a squared
/// distance, to the next one.
#[inline]
fn is_opened(node: &WalkNode, at: usize, place: usize, d2: u64) -> bool
    requires { at < 2 ^ 32 }
    ensures { result ≡ is_opened d2 place at node.now }
{
    d2 < node.least || holds(at, node.skip, place)
}

/// Adds the term of a node where words of 64 bits don't do. It stands apart, so that the walk stays short.
#[cold]
#[inline(never)]
fn add_wide(sum: &mut Pull, law: &Law, node: &WalkNode, from: Point)
    requires rule { IsPullLaw law.now }
    requires light { node.now.mass < 2 ^ 40 }
    requires apart { 0 < squared_distance from node.now.at }
    requires small { IsSmall ((2 ^ 32 - 2) * 2 ^ 80) (2 ^ 32 - 2) sum.old }
    ensures { sum.new ≡ add_pull sum.old (term law.now node.now.mass from node.now.at) }
{
    *sum = sum.plus(plain_term(law, node.mass, from, node.at));
}

/// The sum of the terms of the nodes that a body takes: the node of each other body that it comes to, and
/// of each cell that it takes whole (Barnes and Hut, Nature 324, 1986). The body is at a point, and its own
/// node at a place.
#[inline(never)]
pub fn walk(nodes: &[WalkNode], law: &Law, from: Point, place: usize) -> Pull
    requires rule { IsPullLaw law.now }
    requires laid { All IsLaid nodes.now }
    requires few { length nodes.now < 2 ^ 32 - 1 }
    ensures { result ≡ walked law.now from place 0 nodes.now 0 }
{
    let mut short = ShortPull::none();
    let mut wide = Pull::none();
    let mut at = 0usize;
    while at < nodes.len() {
        let node = &nodes[at];
        let d2 = squared_distance(from, node.at);
        if is_opened(node, at, place, d2) {
            at += 1;
        } else {
            at += node.skip as usize;
            match short_term(law, node.mass, from, node.at, d2) {
                Some(term) => short = short.plus(term),
                None => add_wide(&mut wide, law, node, from),
            }
        }
    }
    wide.plus(short.pull())
}
