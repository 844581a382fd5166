//! The zones of the workers.

ghost use Rattle.std.specs.Prelude.{◌≡◌, ◌<◌, ◌≤◌, ◌+◌, ◌*◌, ℕ, All, IfOk, OnOk, length, map};
ghost use Rattle.octant_code.specs.declared.limits.TheConstants.{LEVELS};
ghost use Rattle.bh_model.specs.Bodies.{IsIn};
ghost use Rattle.bh_model.specs.Plans.{HasWorkers};
ghost use Rattle.bh_model.specs.Trees.{order};
ghost use Rattle.bh_model.specs.Zones.{IsCost, cost_at, zone, zones};
ghost use Rattle.costzones.specs.Ranges.{opened, range_start};
ghost use Rattle.mass_moments.specs.Kept.{HaveCosts};
ghost use Rattle.octree.specs.Stored.{tree_of};

use crate::descend::{Cut, descend, meets};
use mass_moments::Moments;
use octant_code::{OutOfMemory, Steps};
use octree::Octree;
use std::alloc::Global;
use std::marker::Brand;
use std::sync::ledger::{Blank, Ledger};

/// Where the range of zone `w` begins: `w * whole / workers`, rounded up.
fn range_start(workers: u32, whole: u64, w: u32) -> u64
    requires workers { HasWorkers workers }
    requires worker { w ≤ workers }
    ensures { result ≡ range_start workers whole w }
{
    let share = u128::from(w) * u128::from(whole) + u128::from(workers - 1);
    (share / u128::from(workers)) as u64
}

/// Zone `w` of 1 to 64 workers, with its bodies in tree order (costzones: Singh, Holt, Totsuka, Gupta
/// and Hennessy, JPDC 1995). It is read off on the way down from the root. A step is a cell that is
/// opened: exactly those whose span of cost meets the zone's range, which are at most 21 for each body
/// of the zone, and 21 more. Where no whole number lies in the range, none is.
pub fn zone<L: Ledger>(
    alloc: Global,
    tree: &Octree,
    moments: &Moments,
    costs: &[u32],
    workers: u32,
    w: u32,
    steps: &mut Steps<L>,
) -> Result<Vec<u32>, OutOfMemory>
    requires costs_of_bodies { (n : ℕ) → IsIn (order (tree_of tree.now)) n → n < length costs.now }
    requires costs { All IsCost costs.now }
    requires moments { HaveCosts tree.now (cost_at costs.now) moments.now }
    requires workers { HasWorkers workers }
    requires worker { w < workers }
    ensures items { IfOk result (λ z. z.items ≡ zone (cost_at costs.now) workers w (tree_of tree.now)) }
    ensures opened { OnOk result (steps.new ≡ steps.old + opened (cost_at costs.now) workers w (tree_of tree.now)) }
    ensures steps { steps.new ≤ steps.old + LEVELS * (length (zone (cost_at costs.now) workers w (tree_of tree.now)) + 1) }
{
    let mut bodies = Vec::new(alloc);
    let root = tree.whole();
    let whole = moments.cost_of(&root, costs);
    let cut = Cut {
        moments,
        costs,
        low: range_start(workers, whole, w),
        high: range_start(workers, whole, w + 1),
    };
    if meets(&cut, 0, whole) {
        descend(&cut, &mut bodies, root, 0, whole, steps)?;
    }
    Ok(bodies)
}

// The zones, with a ledger for their steps.
fn zones_from<L: Ledger>(
    alloc: Global,
    tree: &Octree,
    moments: &Moments,
    costs: &[u32],
    workers: u32,
    blank: Blank,
) -> Result<Vec<Vec<u32>>, OutOfMemory>
    requires name { blank.name ≡ L.name }
    requires parts { (blank.parts ≡ L.parts) × (0 < blank.parts) }
    requires costs_of_bodies { (n : ℕ) → IsIn (order (tree_of tree.now)) n → n < length costs.now }
    requires costs { All IsCost costs.now }
    requires moments { HaveCosts tree.now (cost_at costs.now) moments.now }
    requires workers { HasWorkers workers }
    ensures { IfOk result (λ list. map (λ z. z.items) list.items ≡ zones (cost_at costs.now) workers (tree_of tree.now)) }
{
    let mut steps = Steps::<L>::new(blank);
    let mut list = Vec::new(alloc);
    for w in 0..workers {
        let bodies = zone(alloc, tree, moments, costs, workers, w, &mut steps)?;
        match list.push(bodies) {
            Ok(()) => {}
            Err(_) => return Err(OutOfMemory),
        }
    }
    Ok(list)
}

/// The zones of 1 to 64 workers, one after another, each with its bodies in tree order (costzones:
/// Singh, Holt, Totsuka, Gupta and Hennessy, JPDC 1995).
pub fn zones(
    alloc: Global,
    tree: &Octree,
    moments: &Moments,
    costs: &[u32],
    workers: u32,
) -> Result<Vec<Vec<u32>>, OutOfMemory>
    requires costs_of_bodies { (n : ℕ) → IsIn (order (tree_of tree.now)) n → n < length costs.now }
    requires costs { All IsCost costs.now }
    requires moments { HaveCosts tree.now (cost_at costs.now) moments.now }
    requires workers { HasWorkers workers }
    ensures { IfOk result (λ list. map (λ z. z.items) list.items ≡ zones (cost_at costs.now) workers (tree_of tree.now)) }
{
    zones_from::<Brand>(alloc, tree, moments, costs, workers, Blank::new(1))
}
