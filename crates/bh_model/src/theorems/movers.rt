//! The theorems about updates of octrees.

ghost use Rattle.std.specs.Prelude.{◌≡◌, ◌+◌, ◌<◌, ℕ, All, length};
ghost use Rattle.octant_code.specs.Points.{site_at};
ghost use Rattle.bh_model.specs.Bodies.{NoneTwice};
ghost use Rattle.bh_model.specs.Movers.{stay, update_counts};
ghost use Rattle.bh_model.specs.Trees.{HasCellAt, cell_count, octree};

use octant_code::Points;

/// Each cell of what stays, the canonical octree of the bodies that don't leave their cells, is a cell
/// of the octree before and of the octree after.
pub fn cells_that_stay_are_in_both(old: &Points, new: &Points, bodies: &[u32], key: u64)
    requires distinct { NoneTwice bodies.now }
    requires old_within { All (λ n. n < length old.now) bodies.now }
    requires new_within { All (λ n. n < length new.now) bodies.now }
    ensures before { HasCellAt (stay (site_at old.now) (site_at new.now) bodies.now) key → HasCellAt (octree (site_at old.now) bodies.now) key }
    ensures after { HasCellAt (stay (site_at old.now) (site_at new.now) bodies.now) key → HasCellAt (octree (site_at new.now) bodies.now) key }
{
    let _read = (old.len(), new.len(), bodies.len(), key);
}

/// The octree before has the cells of what stays and the freed ones, and the octree after those of
/// what stays and the taken ones.
pub fn counts_are_differences_of_cells(old: &Points, new: &Points, bodies: &[u32])
    requires distinct { NoneTwice bodies.now }
    requires old_within { All (λ n. n < length old.now) bodies.now }
    requires new_within { All (λ n. n < length new.now) bodies.now }
    ensures before { cell_count (octree (site_at old.now) bodies.now) ≡ cell_count (stay (site_at old.now) (site_at new.now) bodies.now) + (update_counts (site_at old.now) (site_at new.now) bodies.now).freed }
    ensures after { cell_count (octree (site_at new.now) bodies.now) ≡ cell_count (stay (site_at old.now) (site_at new.now) bodies.now) + (update_counts (site_at old.now) (site_at new.now) bodies.now).taken }
{
    let _read = (old.len(), new.len(), bodies.len());
}
