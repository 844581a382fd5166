//! The octree of a worker's own bodies.

ghost use Rattle.std.specs.Prelude.{◌≡◌, ◌*◌, ◌<◌, ◌≤◌, ◌↔◌, ℕ, length};
ghost use Rattle.octant_code.specs.Points.{site_at};
ghost use Rattle.bh_model.specs.Bodies.{IsIn, NoneTwice};
ghost use Rattle.bh_model.specs.Trees.{octree, order};
ghost use Rattle.tree_rule.specs.Words.{HasBody};
ghost use Rattle.tree_rule.specs.declared.words.TheConstants.{CELLS_OF_ONE};
ghost use Rattle.tree_passes.specs.Counting.{times};
ghost use Rattle.octree.specs.Stored.{root_word, spare_of, tree_of, IsCanonical, IsStored};

use octant_code::Points;
use octree::Octree;

/// Inserts the bodies of a share into an empty octree of the whole cube, in any order of them. It takes
/// no memory, and at most 21 of the spare cells for each body.
pub(crate) fn fill(own: &mut Octree, points: &Points, share: &[u32], sequence: &[u32])
    requires base { own.old.base ≡ 1 }
    requires empty { root_word own.old ≡ 0 }
    requires spare { CELLS_OF_ONE * length share.now ≤ spare_of own.old }
    requires once { NoneTwice share.now }
    requires within { (x : ℕ) → IsIn share.now x → x < length points.now }
    requires same { (x : ℕ) → times x sequence.now ≡ times x share.now }
    ensures base { own.new.base ≡ 1 }
    ensures rule { IsStored own.new }
    ensures canonical { IsCanonical points.now own.new }
    ensures order { (x : ℕ) → IsIn (order (tree_of own.new)) x ↔ IsIn share.now x }
    ensures bodies { (x : ℕ) → HasBody own.new.words x ↔ IsIn share.now x }
    ensures tree { tree_of own.new ≡ octree (site_at points.now) share.now }
{
    let _rule = (points.len(), own.held());
    for i in 0..sequence.len() {
        own.insert(points, sequence[i]);
    }
    own.canonical_tree(points);
    let _whole = own.whole();
}
