//! The words that name bodies.

ghost use Rattle.std.specs.Prelude.{◌≤◌, ◌<◌, length};
ghost use Rattle.octant_code.specs.Points.{site_at};
ghost use Rattle.octant_code.specs.Space.{key_of};
ghost use Rattle.octant_code.specs.declared.limits.TheConstants.{LEVELS};
ghost use Rattle.update_build.specs.Moving.{AreWordsOf, IsLeafAt};

use octant_code::{Points, octant};
use tree_rule::{Named, named_by, place_of_child};

/// Where a body's word stands, and the level of its cube.
#[derive(Clone, Copy, Drop)]
pub struct Leaf {
    pub place: usize,
    pub level: u32,
}

/// The word that names a body of an octree. It lies on the way down to the body's point.
pub fn leaf_of(words: &Vec<u64>, points: &Points, n: u32) -> Leaf
    requires words { AreWordsOf points.now words.now.items }
    requires there { n < length points.now }
    ensures leaf { IsLeafAt words.now.items (key_of (site_at points.now n) result.level) n result.place }
    ensures shallow { result.level ≤ LEVELS }
    ensures inside { result.place < length words.now.items }
{
    let _rule = points.len();
    let p = points.at(n);
    let mut place: usize = 0;
    let mut level: u32 = 0;
    'down: loop {
        let Named::Cell(cell) = named_by(words[place]) else {
            return Leaf { place, level };
        };
        place = place_of_child(cell, octant(p, level));
        level += 1;
    }
}
