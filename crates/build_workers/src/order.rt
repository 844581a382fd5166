//! The order in which a worker inserts the bodies of its share.

ghost use Rattle.std.specs.Prelude.{◌≡◌, ◌<◌, ◌≤◌, ℕ, All, length, map};
ghost use Rattle.octant_code.specs.declared.limits.TheConstants.{MOST_BODIES};
ghost use Rattle.octree.specs.Ranks.{body_of_rank};
ghost use Rattle.tree_passes.specs.Counting.{times};

use octant_code::Points;
use octree::rank_of;

/// The most workers.
const WORKERS: usize = 64;

/// A number without a common factor with 64, near its golden section: its multiples lie far apart.
const SECTION: usize = 39;

/// The place among so many at which a worker begins.
fn first_place(worker: u32, count: usize) -> usize
    ensures { result ≤ count }
{
    count / WORKERS * (worker as usize % WORKERS * SECTION % WORKERS)
}

/// Ranks the bodies of a share in the order in which the worker of this number inserts them. They come
/// along the Morton key, so that one insertion has in the caches what the next one needs. Each
/// worker begins elsewhere, so that those whose shares lie all over the cube are not at the same cells
/// at the same time.
pub fn rank_share(points: &Points, share: &[u32], worker: u32, ranks: &mut [u64])
    requires below { All (λ n. n < length points.now) share.now }
    requires room { length ranks.old ≡ length share.now }
    ensures { (x : ℕ) → times x (map body_of_rank ranks.new) ≡ times x share.now }
{
    let _few = points.len();
    for i in 0..share.len() {
        ranks[i] = rank_of(points.at(share[i]), share[i]);
    }
    ranks.sort_unstable();
    ranks.rotate_left(first_place(worker, ranks.len()));
}
