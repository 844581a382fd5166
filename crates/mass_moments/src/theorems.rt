//! The theorem of kept costs. The contract is the theorem, and the body only looks at its arguments.

ghost use Rattle.std.specs.Prelude.{◌≡◌};
ghost use Rattle.bh_model.specs.Trees.{order};
ghost use Rattle.bh_model.specs.Zones.{cost_at, cost_of};
ghost use Rattle.mass_moments.specs.Kept.{HaveCosts, moment_at};
ghost use Rattle.octree.specs.Spot.{IsReachable, tree_below};

use crate::table::Moments;
use octree::{CellNo, Octree};

/// With the moments of a tree with these costs, the kept cost of a cell that can be reached is the sum of
/// the costs of its bodies in tree order.
pub fn a_kept_cost_is_that_of_the_bodies(tree: &Octree, moments: &Moments, costs: &[u32], c: CellNo)
    requires moments { HaveCosts tree.now (cost_at costs.now) moments.now }
    requires reachable { IsReachable tree.now c.0 }
    ensures { (moment_at moments.now c.0).cost ≡ cost_of (cost_at costs.now) (order (tree_below tree.now c.0)) }
{
    let _read = (tree.held(), moments.len(), costs.len(), c.0);
}
