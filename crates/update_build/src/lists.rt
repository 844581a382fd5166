//! Lists of lists.

ghost use Rattle.std.specs.Prelude.{◌≡◌, IfOk};
ghost use Rattle.tree_passes.specs.Counting.{all_of};

use octant_code::OutOfMemory;
use std::alloc::Global;

/// The members of lists, one list after another.
///
/// # Errors
///
/// `OutOfMemory` for want of memory.
pub fn all_members(alloc: Global, lists: &[Vec<u32>]) -> Result<Vec<u32>, OutOfMemory>
    ensures { IfOk result (λ v. v.items ≡ all_of (λ l. l.items) lists.now) }
{
    let mut all = Vec::new(alloc);
    for i in 0..lists.len() {
        let list = lists[i].as_slice();
        all.extend_from_slice(list)?;
    }
    Ok(all)
}
