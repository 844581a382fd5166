//! The subtrees of an octree, as they are read on the way down from its root.

use crate::node::CellNo;
use crate::octree::Octree;
use std::marker::Model;
use tree_rule::{Named, named_by, place_of_child};

/// What an octree has below one of its words, which is read on the way down from the root.
///
/// Contracts see it as a `Spot`: the octree and the word.
#[derive(Drop)]
pub struct Subtree<'a> {
    pub(crate) octree: &'a Octree,
    pub(crate) word: u64,
}

impl<'a> Model for Subtree<'a> {
    ghost use Rattle.octree.specs.Spot.{IsSpot, Spot};

    ghost Value = { Spot };

    ghost view = { λ a. record { octree = a.octree.now; word = a.word } };

    ghost invariant = { λ a. IsSpot (record { octree = a.octree.now; word = a.word }) };
}

/// A cell of an octree. Contracts see it as the `Spot` of its word.
#[derive(Drop)]
pub struct CellAt<'a> {
    octree: &'a Octree,
    number: CellNo,
}

impl<'a> Model for CellAt<'a> {
    ghost use Rattle.tree_rule.specs.Words.{cell_word};
    ghost use Rattle.octree.specs.Spot.{IsSpot, Spot};

    ghost Value = { Spot };

    ghost view = { λ a. record { octree = a.octree.now; word = cell_word a.number.0 } };

    ghost invariant = { λ a. IsSpot (record { octree = a.octree.now; word = cell_word a.number.0 }) };
}

/// What stands at the top of a subtree: nothing, a body by its number, or a cell.
#[derive(Drop)]
pub enum Top<'a> {
    Nothing,
    Body(u32),
    Cell(CellAt<'a>),
}

impl<'a> Subtree<'a> {
    ghost use Rattle.octree.specs.Subtree.{IsTopOf};

    /// What stands at the top.
    #[inline]
    pub fn top(&self) -> Top<'a>
        ensures { IsTopOf self.now result }
    {
        match named_by(self.word) {
            Named::Nothing => Top::Nothing,
            Named::Body(n) => Top::Body(n),
            Named::Cell(c) => Top::Cell(CellAt {
                octree: self.octree,
                number: CellNo(c),
            }),
        }
    }
}

impl<'a> CellAt<'a> {
    ghost use Rattle.std.specs.Prelude.{◌<◌, ◌≡◌};
    ghost use Rattle.octree.specs.Spot.{cell_at};
    ghost use Rattle.octree.specs.Subtree.{IsChildOf};

    /// The number of the cell.
    #[inline]
    pub fn number(&self) -> CellNo
        ensures { result.0 ≡ cell_at self.now }
    {
        self.number
    }

    /// What stands below child `k`, 0 to 7.
    #[inline]
    pub fn child(&self, k: u32) -> Subtree<'a>
        requires { k < 8 }
        ensures { IsChildOf self.now k result }
    {
        Subtree {
            octree: self.octree,
            word: self.octree.word_at(place_of_child(self.number.0, k)),
        }
    }
}
