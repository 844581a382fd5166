//! The moments of the cells of an octree, by the numbers of the cells.

use bh_model::Moment;
use octant_code::Point;
use octree::{CellNo, Subtree, Top};
use std::marker::Model;

/// The moments of the cells of an octree, and the centre of mass of each. Contracts see them as the
/// list of the moments; the moment of a cell stands at the cell's number, and what stands at the other
/// numbers has no meaning.
#[derive(Drop)]
pub struct Moments {
    list: Vec<Moment>,
    centres: Vec<Point>,
}

impl Model for Moments {
    ghost use Rattle.std.specs.Prelude.{List};
    ghost use Rattle.bh_model.specs.declared.moment.Moment.{Moment};
    ghost use Rattle.mass_moments.specs.Centred.{AreCentred};

    ghost Value = { List Moment };

    ghost view = { λ m. m.list.items };

    ghost invariant = { λ m. AreCentred m.list.items m.centres.items };
}

impl Moments {
    ghost use Rattle.std.specs.Prelude.{◌≡◌, ◌<◌, ℕ, length};
    ghost use Rattle.bh_model.specs.Bodies.{IsIn};
    ghost use Rattle.bh_model.specs.Moments.{centre_of, total};
    ghost use Rattle.bh_model.specs.Trees.{order};
    ghost use Rattle.bh_model.specs.Zones.{cost_at};
    ghost use Rattle.mass_moments.specs.Centred.{AreCentred};
    ghost use Rattle.mass_moments.specs.Kept.{HaveCosts, moment_at};
    ghost use Rattle.octree.specs.Spot.{tree_under};

    // The moments of a list, with their centres.
    pub(crate) fn with_centres(list: Vec<Moment>, centres: Vec<Point>) -> Moments
        requires { AreCentred list.items centres.items }
        ensures { result ≡ list.items }
    {
        Moments { list, centres }
    }

    /// How many numbers of cells there are: each cell's number is below.
    pub fn len(&self) -> usize
        ensures { result ≡ length self.now }
    {
        self.list.len()
    }

    /// The moment at a cell's number. It takes no memory.
    pub fn of(&self, c: CellNo) -> Moment
        requires { c.0 < length self.now }
        ensures { result ≡ moment_at self.now c.0 }
    {
        self.list[c.0 as usize]
    }

    /// The centre of mass at a cell's number, each coordinate rounded down: it was worked out when the
    /// moments were made.
    pub fn centre(&self, c: CellNo) -> Point
        requires inside { c.0 < length self.now }
        requires massive { 0 < (moment_at self.now c.0).mass }
        ensures { result ≡ centre_of (moment_at self.now c.0) }
    {
        self.centres[c.0 as usize]
    }

    #[tactic(auto, using(bh_model::proofs::Totals::total_steps))]
    /// The cost of the bodies of a subtree, which is kept for a cell. The moments are those of a tree with
    /// these costs.
    pub fn cost_of(&self, at: &Subtree, costs: &[u32]) -> u64
        requires costs_of_bodies { (n : ℕ) → IsIn (order (tree_under at.now)) n → n < length costs.now }
        requires moments { HaveCosts at.now.octree (cost_at costs.now) self.now }
        ensures { result ≡ total (cost_at costs.now) (tree_under at.now) }
    {
        match at.top() {
            Top::Nothing => 0,
            Top::Body(n) => u64::from(costs[n as usize]),
            Top::Cell(cell) => self.of(cell.number()).cost,
        }
    }
}
