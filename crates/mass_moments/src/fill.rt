//! The moments of the cells of a subtree, from the bodies up.

ghost use Rattle.std.specs.Prelude.{◌≡◌, ◌<◌, ◌↔◌, ℕ, IsTrue, length, slice_set};
ghost use Rattle.bh_model.specs.Moments.{FitsWords, moment};
ghost use Rattle.bh_model.specs.Bodies.{IsIn};
ghost use Rattle.bh_model.specs.Trees.{order};
ghost use Rattle.mass_moments.specs.Centred.{AreCentred};
ghost use Rattle.mass_moments.specs.Filling.{AreFilled, AreProductsInCube};
ghost use Rattle.bh_model.specs.Zones.{cost_at};
ghost use Rattle.mass_moments.specs.Kept.{matter_of};
ghost use Rattle.octree.specs.Spot.{IsReachable, tree_under};
ghost use Rattle.octree.specs.Subtree.{IsCellAt};
ghost use Rattle.scene_file.specs.Bodies.{AreBodies};

use bh_model::Moment;
use octant_code::Point;
use octree::{CellAt, Subtree, Top};
use scene_file::Bodies;

/// Whether two moments have one centre for sure.
#[inline]
fn are_alike(a: Moment, b: Moment) -> bool
    ensures { IsTrue result ↔ ((a.mass ≡ b.mass) × (a.px ≡ b.px) × (a.py ≡ b.py) × (a.pz ≡ b.pz)) }
{
    a.mass == b.mass && a.px == b.px && a.py == b.py && a.pz == b.pz
}

// Puts a moment at a cell's number, and its centre. Where a cell has one child, that child's moment is
// its own, and so is the centre: the three divisions are made once for a chain of cells.
fn put(list: &mut [Moment], centres: &mut [Point], c: usize, child: usize, m: Moment)
    requires within { c < length list.old }
    requires child_within { child < length list.old }
    requires inside { AreProductsInCube m }
    requires centred { AreCentred list.old centres.old }
    ensures list { list.new ≡ slice_set list.old c m }
    ensures centred { AreCentred list.new centres.new }
{
    centres[c] = if are_alike(list[child], m) {
        centres[child]
    } else {
        m.centre()
    };
    list[c] = m;
}

// Puts the moment of each cell of a subtree whose top is a cell at the cell's number, and returns the
// subtree's own, which is the sum of its children's.
fn fill_cell(
    cell: CellAt,
    bodies: &Bodies,
    costs: &[u32],
    list: &mut [Moment],
    centres: &mut [Point],
) -> Moment
    requires cell { IsCellAt cell cell }
    requires rule { AreBodies bodies.now }
    requires bodies_in { (n : ℕ) → IsIn (order (tree_under cell)) n → n < length bodies.now }
    requires one_cost_each { length costs.now ≡ length bodies.now }
    requires cells_in { (c : ℕ) → IsReachable cell.octree c → c < length list.old }
    requires fits { FitsWords (moment (matter_of bodies.now) (cost_at costs.now) (tree_under cell)) }
    requires centred { AreCentred list.old centres.old }
    ensures value { result ≡ moment (matter_of bodies.now) (cost_at costs.now) (tree_under cell.entry) }
    ensures filled { AreFilled (matter_of bodies.now) (cost_at costs.now) cell.entry list.old list.new }
    ensures centred { AreCentred list.new centres.new }
{
    let number = cell.number().0 as usize;
    let mut whole = Moment::none();
    let mut below = number;
    for k in 0..8 {
        let child = cell.child(k);
        match child.top() {
            Top::Nothing => {}
            Top::Body(n) => {
                let body = bodies.get(n);
                whole = whole.plus(Moment::of_body(body.mass, body.at, costs[n as usize]));
            }
            Top::Cell(part) => {
                below = part.number().0 as usize;
                whole = whole.plus(fill_cell(part, bodies, costs, list, centres));
            }
        }
    }
    put(list, centres, number, below, whole);
    whole
}

/// Puts the moment of each cell of a subtree at the cell's number, and its centre.
pub fn fill(
    at: &Subtree,
    bodies: &Bodies,
    costs: &[u32],
    list: &mut [Moment],
    centres: &mut [Point],
)
    requires rule { AreBodies bodies.now }
    requires bodies_in { (n : ℕ) → IsIn (order (tree_under at.now)) n → n < length bodies.now }
    requires one_cost_each { length costs.now ≡ length bodies.now }
    requires cells_in { (c : ℕ) → IsReachable at.now.octree c → c < length list.old }
    requires fits { FitsWords (moment (matter_of bodies.now) (cost_at costs.now) (tree_under at.now)) }
    requires centred { AreCentred list.old centres.old }
    ensures filled { AreFilled (matter_of bodies.now) (cost_at costs.now) at.now list.old list.new }
    ensures centred { AreCentred list.new centres.new }
{
    match at.top() {
        Top::Nothing | Top::Body(_) => {}
        Top::Cell(cell) => {
            let _whole = fill_cell(cell, bodies, costs, list, centres);
        }
    }
}
