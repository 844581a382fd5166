//! The plain slow program for zones.

ghost use Rattle.std.specs.Prelude.{◌≡◌, ◌*◌, ◌/◌, ◌^◌, ◌<◌, ◌++◌, ◌∷◌, [], if◌then◌else◌, All, IfOk, OnOk, length, slice_index};
ghost use Rattle.octant_code.specs.Points.{site_at};
ghost use Rattle.bh_model.specs.Trees.{octree};
ghost use Rattle.bh_model.specs.Zones.{cost_of, zone, zone_from};

use crate::trees::plain_order;
use octant_code::{OutOfMemory, Points};
use std::alloc::Global;

/// The bodies of zone `w` of so many workers, in tree order: those whose share of the whole cost,
/// `before * workers / whole` with `before` the cost of the bodies that stand before it, is `w`.
///
/// Each body of the list has its point and its cost.
pub fn plain_zone(
    alloc: Global,
    points: &Points,
    costs: &[u32],
    workers: u32,
    w: u32,
    bodies: &[u32],
) -> Result<Vec<u32>, OutOfMemory>
    requires within { All (λ n. n < length points.now) bodies.now }
    requires costed { All (λ n. n < length costs.now) bodies.now }
    ensures { IfOk result (λ z. z.items ≡ zone (λ n. slice_index costs.now n) workers w (octree (site_at points.now) bodies.now)) }
{
    let order = plain_order(alloc, points, bodies)?;
    zone_of_order(alloc, costs, workers, w, &order)
}

/// The bodies of zone `w` of bodies in tree order.
fn zone_of_order(
    alloc: Global,
    costs: &[u32],
    workers: u32,
    w: u32,
    order: &[u32],
) -> Result<Vec<u32>, OutOfMemory>
    requires { All (λ n. n < length costs.now) order.now }
    ensures { IfOk result (λ z. z.items ≡ zone_from (λ n. slice_index costs.now n) workers (cost_of (λ n. slice_index costs.now n) order.now) 0 order.now w) }
{
    let whole = cost_of_list(costs, order);
    let mut zone: Vec<u32> = Vec::new(alloc);
    let mut before: u128 = 0;
    for n in order {
        push_if(
            share_of(before, workers, whole) == u128::from(w),
            *n,
            &mut zone,
        )?;
        before += u128::from(costs[*n as usize]);
    }
    Ok(zone)
}

/// Appends a body if it is wanted.
fn push_if(wanted: bool, n: u32, out: &mut Vec<u32>) -> Result<(), OutOfMemory>
    ensures { OnOk result (out.new.items ≡ out.old.items ++ (if wanted then n ∷ [] else [])) }
{
    if wanted && out.push(n).is_err() {
        return Err(OutOfMemory);
    }
    Ok(())
}

/// The cost of a list of bodies.
fn cost_of_list(costs: &[u32], bodies: &[u32]) -> u128
    requires { All (λ n. n < length costs.now) bodies.now }
    ensures value { result ≡ cost_of (λ n. slice_index costs.now n) bodies.now }
    ensures fits { result < 2 ^ 96 }
{
    let mut whole: u128 = 0;
    for n in bodies {
        whole += u128::from(costs[*n as usize]);
    }
    whole
}

/// The share of a body before which bodies of some cost stand, rounded down, and 0 where nothing
/// costs anything.
fn share_of(before: u128, workers: u32, whole: u128) -> u128
    requires { before < 2 ^ 96 }
    ensures { result ≡ before * workers / whole }
{
    if whole == 0 {
        return 0;
    }
    before * u128::from(workers) / whole
}
