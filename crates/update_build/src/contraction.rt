//! Cells with fewer than two bodies go.

ghost use Rattle.std.specs.Prelude.{◌≡◌, ◌≤◌, IfOk, length};
ghost use Rattle.octant_code.specs.Points.{site_at};
ghost use Rattle.tree_rule.specs.Sound.{BodiesUnder};
ghost use Rattle.tree_rule.specs.Words.{at_of};
ghost use Rattle.update_build.specs.Contracting.{AreContracted, AreThinned, IsWhatStays};

use crate::edits::apply;
use crate::readers::read_all;
use crate::reading::read_word;
use octant_code::{OutOfMemory, Points};
use octree::Octree;
use std::alloc::Global;
use std::thread::Threads;

/// How many levels below the whole cube the parts of several workers begin.
const PARTS_BELOW: u32 = 4;

/// Contracts words from which bodies were taken out: a cell without bodies leaves an empty word, and a
/// cell of one body that body. All other cells keep their numbers. So many workers read the words, all at
/// the same time, and nothing is written before all are done. Each cell is looked at after those below it.
///
/// # Errors
///
/// `OutOfMemory` for want of memory.
pub fn contract<R: Threads + Sync>(
    rt: &R,
    alloc: Global,
    points: &Points,
    words: &mut Vec<u64>,
    workers: u64,
) -> Result<(), OutOfMemory>
    requires thinned { AreThinned points.now words.old.items }
    requires some { 1 ≤ workers }
    ensures { IfOk result (λ r. AreContracted points.now words.old.items words.new.items) }
{
    let _rule = points.len();
    let depth = if workers == 1 { 0 } else { PARTS_BELOW };
    let edits = read_all(rt, alloc, points, words, depth, workers, workers)?;
    apply(words, &edits);
    let mut upper = Vec::new(alloc);
    read_word(points, words, 0, 1, depth, &mut upper)?;
    apply(words, &upper);
    Ok(())
}

/// The octree of the bodies that were left in thinned words, canonical at new points, each of which lies
/// in the cube of its body's word. Its cells are some of the words', with their numbers.
///
/// # Errors
///
/// `OutOfMemory` for want of memory.
pub fn what_stays<R: Threads + Sync>(
    rt: &R,
    alloc: Global,
    old: &Points,
    new: &Points,
    words: Vec<u64>,
    workers: u64,
) -> Result<Octree, OutOfMemory>
    requires thinned { AreThinned old.now words.items }
    requires under { BodiesUnder (site_at new.now) (at_of words.items) (at_of words.items 0) 1 }
    requires many { length new.now ≡ length old.now }
    requires some { 1 ≤ workers }
    ensures { IfOk result (λ r. IsWhatStays new.now words.items r) }
{
    let _rule = old.len();
    let mut words = words;
    contract(rt, alloc, old, &mut words, workers)?;
    Ok(Octree::of_words(words))
}
