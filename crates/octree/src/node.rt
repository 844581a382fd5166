//! What a word names.

ghost use Rattle.std.specs.Prelude.{◌<◌, ◌^◌};
ghost use Rattle.octree.specs.Node.{IsNodeOf};

use tree_rule::{Named, named_by};

/// The number of a cell of an octree.
#[derive(Clone, Copy, Debug, PartialEq, Eq)]
pub struct CellNo(pub u32);

/// What a word names: nothing, a body by its number, or a cell.
#[derive(Clone, Copy, Debug, PartialEq, Eq)]
pub enum Node {
    Empty,
    Body(u32),
    Cell(CellNo),
}

/// The node that a word names.
pub fn node_of(word: u64) -> Node
    requires { word < 2 ^ 33 }
    ensures { IsNodeOf word result }
{
    match named_by(word) {
        Named::Nothing => Node::Empty,
        Named::Body(n) => Node::Body(n),
        Named::Cell(c) => Node::Cell(CellNo(c)),
    }
}
