//! The theorems about blocks of bodies.

ghost use Rattle.std.specs.Prelude.{◌≡◌, ◌<◌, ◌≤◌, ℕ, All, length};
ghost use Rattle.octant_code.specs.Points.{site_at};
ghost use Rattle.bh_model.specs.Bodies.{IsIn};
ghost use Rattle.bh_model.specs.Blocks.{blocks};

use octant_code::Points;

/// The blocks of a list of bodies against others are at most the bodies of the list.
pub fn blocks_are_at_most_the_bodies(points: &Points, bodies: &[u32], others: &[u32])
    ensures { blocks (site_at points.now) bodies.now others.now ≤ length bodies.now }
{
    let _read = (points.len(), bodies.len(), others.len());
}

/// A list with a body has a block against bodies that it doesn't have.
pub fn a_body_has_a_block(points: &Points, bodies: &[u32], others: &[u32])
    requires some { 0 < length bodies.now }
    requires within { All (λ n. n < length points.now) bodies.now }
    requires others_within { All (λ n. n < length points.now) others.now }
    requires apart { (n : ℕ) → IsIn bodies.now n → IsIn others.now n → ⊥ }
    ensures { 1 ≤ blocks (site_at points.now) bodies.now others.now }
{
    let _read = (points.len(), bodies.len(), others.len());
}
