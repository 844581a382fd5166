//! The theorems about canonical octrees.

ghost use Rattle.std.specs.Prelude.{◌≡◌, ◌↔◌, ◌<◌, ◌≤◌, ◌*◌, ℕ, All, length};
ghost use Rattle.octant_code.specs.Space.{IsInCube};
ghost use Rattle.octant_code.specs.Points.{site_at};
ghost use Rattle.octant_code.specs.declared.limits.TheConstants.{LEVELS};
ghost use Rattle.bh_model.specs.Bodies.{IsIn, NoneTwice, HasMoreUnder};
ghost use Rattle.bh_model.specs.Trees.{cell_count, octree, order, HasCellAt};

use octant_code::Points;

/// One tree for every order: two lists of the same bodies, each with no body twice, have one
/// canonical octree.
pub fn one_tree_for_every_order(points: &Points, one: &[u32], other: &[u32])
    requires one_distinct { NoneTwice one.now }
    requires other_distinct { NoneTwice other.now }
    requires same_bodies { (n : ℕ) → IsIn one.now n ↔ IsIn other.now n }
    ensures { octree (site_at points.now) one.now ≡ octree (site_at points.now) other.now }
{
    let _read = (points.len(), one.len(), other.len());
}

/// The canonical octree has a cell at a key exactly where more bodies of the list lie under the key
/// than a leaf holds, which is one.
pub fn cells_are_where_two_bodies_lie(points: &Points, bodies: &[u32], key: u64)
    requires distinct { NoneTwice bodies.now }
    requires within { All (λ n. n < length points.now) bodies.now }
    ensures { HasCellAt (octree (site_at points.now) bodies.now) key ↔ HasMoreUnder (site_at points.now) bodies.now key }
{
    let _read = (points.len(), bodies.len(), key);
}

/// The order of the canonical octree has exactly the bodies of the list, each once.
pub fn order_has_each_body_once(points: &Points, bodies: &[u32])
    requires distinct { NoneTwice bodies.now }
    requires within { All (λ n. n < length points.now) bodies.now }
    ensures same_bodies { (n : ℕ) → IsIn (order (octree (site_at points.now) bodies.now)) n ↔ IsIn bodies.now n }
    ensures once { NoneTwice (order (octree (site_at points.now) bodies.now)) }
{
    let _read = (points.len(), bodies.len());
}

/// The canonical octree has at most 21 cells for each body of the list: one of each level.
pub fn an_octree_has_at_most_21_cells_a_body(points: &Points, bodies: &[u32])
    ensures { cell_count (octree (site_at points.now) bodies.now) ≤ LEVELS * length bodies.now }
{
    let _read = (points.len(), bodies.len());
}
