//! The theorems about the pieces of space.

ghost use Rattle.std.specs.Prelude.{◌≡◌, ℕ, length, map, sum_by};
ghost use Rattle.octant_code.specs.Points.{site_at};
ghost use Rattle.octant_code.specs.Prefixes.{AreInTreeOrder, HaveNoPrefixes};
ghost use Rattle.bh_model.specs.Bodies.{IsIn};
ghost use Rattle.bh_model.specs.Pieces.{IsUnderOne, pieces};

use octant_code::Points;

/// The pieces part the bodies: the point of each body lies in the cube of exactly one piece, and the
/// counts of the pieces sum to the number of bodies.
pub fn each_body_is_in_one_piece(points: &Points, bodies: &[u32], workers: u32)
    ensures one { (n : ℕ) → IsIn bodies.now n → IsUnderOne (map (λ p. p.key) (pieces (site_at points.now) workers bodies.now)) (site_at points.now n) }
    ensures sum { sum_by (λ p. p.count) (pieces (site_at points.now) workers bodies.now) ≡ length bodies.now }
{
    let _read = (points.len(), bodies.len(), workers);
}

/// The keys of the pieces stand in tree order, and the cube of no piece holds that of another.
pub fn pieces_stand_in_tree_order(points: &Points, bodies: &[u32], workers: u32)
    ensures order { AreInTreeOrder (map (λ p. p.key) (pieces (site_at points.now) workers bodies.now)) }
    ensures apart { HaveNoPrefixes (map (λ p. p.key) (pieces (site_at points.now) workers bodies.now)) }
{
    let _read = (points.len(), bodies.len(), workers);
}
