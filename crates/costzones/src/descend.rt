//! The descent to the bodies of one zone.

ghost use Rattle.std.specs.Prelude.{◌≡◌, ◌<◌, ◌≤◌, ◌+◌, ◌++◌, ℕ, All, IsTrue, OnOk, length};
ghost use Rattle.bh_model.specs.Bodies.{IsIn};
ghost use Rattle.bh_model.specs.Moments.{total};
ghost use Rattle.bh_model.specs.Trees.{order};
ghost use Rattle.bh_model.specs.Zones.{IsCost, cost_at};
ghost use Rattle.costzones.specs.Ranges.{between, busy, meets, opened_from};
ghost use Rattle.mass_moments.specs.Kept.{HaveCosts};
ghost use Rattle.octree.specs.Spot.{tree_under};

use mass_moments::Moments;
use octant_code::{OutOfMemory, Steps};
use octree::{Subtree, Top};
use std::sync::ledger::Ledger;

/// A zone that is cut out: that of the bodies that begin from the cost `low` up to but without `high`.
#[derive(Clone, Copy)]
pub struct Cut<'a> {
    pub moments: &'a Moments,
    pub costs: &'a [u32],
    pub low: u64,
    pub high: u64,
}

/// Whether a whole number of a zone's range lies in a span of cost.
#[inline]
pub fn meets(cut: &Cut, from: u64, to: u64) -> bool
    ensures { result ≡ meets cut.now.low cut.now.high from to }
{
    cut.low.max(from) < cut.high.min(to)
}

#[tactic(auto, using(crate::proofs::Gatherings::gather_steps))]
/// Puts the bodies of a subtree at the end of a list, in tree order. A step is a cell that is opened:
/// each of the subtree's.
fn gather<L: Ledger>(
    node: Subtree,
    bodies: &mut Vec<u32>,
    steps: &mut Steps<L>,
) -> Result<(), OutOfMemory>
    ensures items { OnOk result (bodies.new.items ≡ bodies.old.items ++ order (tree_under node.entry)) }
    ensures opened { OnOk result (steps.new ≡ steps.old + busy (tree_under node.entry)) }
    ensures few { steps.new ≤ steps.old + busy (tree_under node.entry) }
{
    match node.top() {
        Top::Nothing => Ok(()),
        Top::Body(n) => match bodies.push(n) {
            Ok(()) => Ok(()),
            Err(_) => Err(OutOfMemory),
        },
        Top::Cell(cell) => {
            steps.tick();
            for k in 0..8 {
                let child = cell.child(k);
                match child.top() {
                    Top::Nothing => {}
                    _ => gather(child, bodies, steps)?,
                }
            }
            Ok(())
        }
    }
}

/// Puts the bodies of the zone that stand in a subtree at the end of a list. The bodies before them have
/// the cost `before`, and with them `after`. A step is a cell that is opened: each whose span of cost
/// meets the zone's range. Where the whole span lies in the range, nothing more is compared.
pub fn descend<L: Ledger>(
    cut: &Cut,
    bodies: &mut Vec<u32>,
    node: Subtree,
    before: u64,
    after: u64,
    steps: &mut Steps<L>,
) -> Result<(), OutOfMemory>
    requires costs_of_bodies { (n : ℕ) → IsIn (order (tree_under node)) n → n < length cut.now.costs.now }
    requires costs { All IsCost cut.now.costs.now }
    requires moments { HaveCosts node.octree (cost_at cut.now.costs.now) cut.now.moments.now }
    requires after { after ≡ before + total (cost_at cut.now.costs.now) (tree_under node) }
    requires meets { IsTrue (meets cut.now.low cut.now.high before (before + total (cost_at cut.now.costs.now) (tree_under node))) }
    ensures items { OnOk result (bodies.new.items ≡ bodies.old.items ++ between (cost_at cut.now.costs.now) cut.now.low cut.now.high before (order (tree_under node.entry))) }
    ensures opened { OnOk result (steps.new ≡ steps.old + opened_from (cost_at cut.now.costs.now) cut.now.low cut.now.high before (tree_under node.entry)) }
    ensures few { steps.new ≤ steps.old + opened_from (cost_at cut.now.costs.now) cut.now.low cut.now.high before (tree_under node.entry) }
{
    if cut.low <= before && after <= cut.high {
        return gather(node, bodies, steps);
    }
    match node.top() {
        Top::Nothing => Ok(()),
        Top::Body(n) => {
            if cut.low <= before {
                match bodies.push(n) {
                    Ok(()) => Ok(()),
                    Err(_) => Err(OutOfMemory),
                }
            } else {
                Ok(())
            }
        }
        Top::Cell(cell) => {
            steps.tick();
            let mut at = before;
            for k in 0..8 {
                let child = cell.child(k);
                let next = at + cut.moments.cost_of(&child, cut.costs);
                if meets(cut, at, next) {
                    descend(cut, bodies, child, at, next, steps)?;
                }
                at = next;
            }
            Ok(())
        }
    }
}
