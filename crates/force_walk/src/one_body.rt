//! The pull on one body.

ghost use Rattle.std.specs.Prelude.{◌≡◌, ◌+◌, ◌^◌, ◌<◌, ◌≤◌, length};
ghost use Rattle.octant_code.specs.declared.limits.TheConstants.{LEVELS};
ghost use Rattle.octant_code.specs.Space.{squared_distance};
ghost use Rattle.bh_model.specs.Pulls.{is_whole, pull, pull_from, term};
ghost use Rattle.force_walk.specs.Cubes.{HasRoom, IsTreeOfCube};
ghost use Rattle.force_walk.specs.Views.{IsView, seen};
ghost use Rattle.force_walk.specs.Walks.{IsPullAmong};
ghost use Rattle.mass_moments.specs.Kept.{HaveMatter, matter_of};
ghost use Rattle.octree.specs.Stored.{IsOctreeOf, tree_of};
ghost use Rattle.octree.specs.Spot.{tree_under};
ghost use Rattle.scene_file.specs.Bodies.{sites_of};

use crate::least::least_distances;
use crate::term::term_at;
use crate::view::View;
use bh_model::{Law, Pull};
use mass_moments::Moments;
use octant_code::{LEVELS, Point, key_at, squared_distance};
use octree::{Octree, Subtree, Top};
use scene_file::Bodies;

/// The pull on body `n`. It takes no memory, and reads the octree on the way; for many bodies `pulls`
/// is faster.
pub fn pull(tree: &Octree, moments: &Moments, bodies: &Bodies, n: u32, law: &Law) -> Pull
    requires octree { IsOctreeOf (sites_of bodies.now) tree.now }
    requires moments { HaveMatter tree.now (matter_of bodies.now) moments.now }
    requires body { n < length bodies.now }
    ensures value { result ≡ pull law.now (matter_of bodies.now) n (tree_of tree.now) }
    ensures small { IsPullAmong (length bodies.now) result }
{
    let _rule = bodies.len();
    let least = least_distances(law);
    let from = bodies.get(n).at;
    let view = View {
        moments,
        bodies,
        law,
        least: &least,
        n,
        from,
        own: key_at(from, LEVELS),
    };
    pull_below(&view, &tree.whole(), LEVELS, 1)
}

/// The pull of a subtree, whose cube has side `2^down` and a key.
#[tactic(auto, using(octree::proofs::Laws::child_height))]
fn pull_below(view: &View, at: &Subtree, down: u32, key: u64) -> Pull
    requires view { IsView view.now }
    requires cube { IsTreeOfCube (seen view.now) (length view.now.bodies.now) down (tree_under at.now) }
    requires room { HasRoom down key }
    requires moments { HaveMatter at.now.octree (seen view.now) view.now.moments.now }
    ensures { result ≡ pull_from view.now.law.now (seen view.now) view.now.n down key (tree_under at.now) }
{
    match at.top() {
        Top::Nothing => Pull::none(),
        Top::Body(other) => {
            if other == view.n {
                Pull::none()
            } else {
                let body = view.bodies.get(other);
                term_to(view, u64::from(body.mass), body.at)
            }
        }
        Top::Cell(cell) => {
            let number = cell.number();
            let centre = view.moments.centre(number);
            if takes_whole(view, down, key, centre) {
                return term_to(view, view.moments.of(number).mass, centre);
            }
            let mut sum = Pull::none();
            for k in 0..8u32 {
                let child_key = 8 * key + u64::from(k);
                sum = sum.plus(pull_below(view, &cell.child(k), down - 1, child_key));
            }
            sum
        }
    }
}

/// Whether the body takes a cell whole, whose cube has side `2^down` and a key, by its centre of mass.
fn takes_whole(view: &View, down: u32, key: u64, centre: Point) -> bool
    requires view { IsView view.now }
    requires shallow { down ≤ LEVELS }
    ensures { result ≡ is_whole view.now.law.now down key view.now.from centre }
{
    let outside = view.own >> (3 * down) != key;
    outside && squared_distance(view.from, centre) >= view.least[down as usize]
}

/// The term of a mass at a point.
fn term_to(view: &View, mass: u64, to: Point) -> Pull
    requires view { IsView view.now }
    requires light { mass < 2 ^ 40 }
    requires apart { 0 < squared_distance view.now.from to + view.now.law.now.eps2 }
    ensures { result ≡ term view.now.law.now mass view.now.from to }
{
    let d2 = squared_distance(view.from, to);
    term_at(view.law, mass, view.from, to, d2)
}
