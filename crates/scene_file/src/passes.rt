//! Passes of moves.

use crate::moves::Move;
use std::alloc::Global;
use std::marker::Model;

/// The passes of a scene, one after another, each a list of moves. Contracts see them as the list of
/// these lists; a pass's number is its place among them, from 0.
#[derive(Debug, Drop)]
pub struct Passes {
    list: Vec<Vec<Move>>,
}

impl Model for Passes {
    ghost use Rattle.std.specs.Prelude.{List, map};
    ghost use Rattle.scene_file.specs.declared.moves.Move.{Move};

    ghost Value = { List (List Move) };

    ghost view = { λ p. map (λ v. v.items) p.list.items };
}

impl Passes {
    ghost use Rattle.std.specs.Prelude.{◌≡◌, ◌<◌, [], length, map};
    ghost use Rattle.scene_file.specs.Moves.{pass_at};

    // No pass.
    pub(crate) fn none(alloc: Global) -> Passes
        ensures { result ≡ [] }
    {
        Passes {
            list: Vec::new(alloc),
        }
    }

    // The passes of a list.
    pub(crate) fn of(list: Vec<Vec<Move>>) -> Passes
        ensures { result ≡ map (λ v. v.items) list.items }
    {
        Passes { list }
    }

    /// How many passes there are.
    pub fn len(&self) -> usize
        ensures { result ≡ length self.now }
    {
        self.list.len()
    }

    /// The moves of a pass, in the order of their records.
    pub fn pass(&self, i: usize) -> &[Move]
        requires { i < length self.now }
        ensures { result.now ≡ pass_at self.now i }
    {
        &self.list[i]
    }
}
