//! The bodies of a tree in tree order.

ghost use Rattle.std.specs.Prelude.{◌≡◌, ◌++◌, OnOk};
ghost use Rattle.bh_model.specs.Trees.{order};
ghost use Rattle.octree.specs.Spot.{tree_under};

use crate::subtree::{Subtree, Top};
use octant_code::OutOfMemory;

#[tactic(auto, using(crate::proofs::Laws::child_height, bh_model::proofs::Folds::order_steps))]
/// Appends the bodies of a subtree.
pub fn push_order(at: Subtree, bodies: &mut Vec<u32>) -> Result<(), OutOfMemory>
    ensures { OnOk result (bodies.new.items ≡ bodies.old.items ++ order (tree_under at.entry)) }
{
    match at.top() {
        Top::Nothing => Ok(()),
        Top::Body(n) => match bodies.push(n) {
            Ok(()) => Ok(()),
            Err(_) => Err(OutOfMemory),
        },
        Top::Cell(cell) => {
            for k in 0..8 {
                push_order(cell.child(k), bodies)?;
            }
            Ok(())
        }
    }
}
