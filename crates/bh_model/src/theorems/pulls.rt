//! The theorems on how large terms and pulls are.

ghost use Rattle.std.specs.Prelude.{◌+◌, ◌-◌, ◌*◌, ◌^◌, ◌<◌, length, slice_index, sum_by};
ghost use Rattle.octant_code.specs.Points.{site_at};
ghost use Rattle.octant_code.specs.Space.{squared_distance};
ghost use Rattle.bh_model.specs.Bodies.{numbers};
ghost use Rattle.bh_model.specs.Moments.{matter_by};
ghost use Rattle.bh_model.specs.Pulls.{IsSmall, pull, term};
ghost use Rattle.bh_model.specs.Trees.{octree};

use crate::pull::Law;
use octant_code::{Point, Points};

/// Each coordinate of the term of a mass lies between minus and plus the constant of gravitation
/// times the mass, where the distance and the softening are not both 0.
pub fn a_term_is_at_most_the_constant_times_the_mass(law: &Law, mass: u64, from: Point, to: Point)
    requires apart { 0 < squared_distance from to + law.now.eps2 }
    ensures { IsSmall (law.now.g * mass) 1 (term law.now mass from to) }
{
    let _read = (law.g, mass, from.x, to.x);
}

/// Each coordinate of the pull on one of the points, of the canonical octree of them all, lies below
/// 2^80 and above -2^80 where the masses of the points sum to less than 2^40, and the pull has a term
/// at most for each other point.
pub fn a_pull_is_below_the_bound(points: &Points, masses: &[u32], law: &Law, n: u32)
    requires own { n < length points.now }
    requires light { sum_by (λ k. slice_index masses.now k) (numbers (length points.now)) < 2 ^ 40 }
    ensures { IsSmall (2 ^ 80 - 1) (length points.now - 1) (pull law.now (matter_by masses.now points.now) n (octree (site_at points.now) (numbers (length points.now)))) }
{
    let _read = (points.len(), masses.len(), law.g, n);
}
