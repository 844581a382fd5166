//! Workers that read words, each in cubes of its own, all at the same time.

ghost use Rattle.std.specs.Prelude.{◌≡◌, ◌<◌, ◌≤◌, [], IfOk, length};
ghost use Rattle.std.specs.Thread.{IsSync};
ghost use Rattle.tree_rule.specs.Flat.{IsPlaceOf};
ghost use Rattle.tree_rule.specs.Words.{HasCell, at_of};
ghost use Rattle.update_build.specs.Contracting.{AreInside, AreThinned};
ghost use Rattle.update_build.specs.Dealing.{IsOfFirst, IsOfWorker, LeaveDealt};

use crate::edits::Edit;
use crate::reading::read_word;
use octant_code::{LEVELS, OutOfMemory, Points};
use std::alloc::Global;
use std::thread;
use std::thread::Threads;
use tree_rule::{Named, named_by, place_of_child};

/// Reads the words of one worker below a word at a place: in the cubes so many levels below, of which the
/// workers have one after another by turns.
fn read_dealt(
    points: &Points,
    words: &Vec<u64>,
    place: usize,
    key: u64,
    depth: u32,
    worker: u64,
    workers: u64,
    edits: &mut Vec<Edit>,
) -> Result<(), OutOfMemory>
    requires thinned { AreThinned points.now words.now.items }
    requires place { IsPlaceOf (at_of words.now.items) 0 1 (HasCell words.now.items) key place }
    requires some { worker < workers }
    requires inside { AreInside (length words.now.items) edits.old.items }
    ensures inside { IfOk result (λ r. AreInside (length words.now.items) edits.new.items) }
    ensures dealt { IfOk result (λ r. LeaveDealt points.now words.now.items (IsOfWorker workers worker) depth key edits.old.items edits.new.items) }
{
    let _rule = points.len();
    if depth == 0 {
        if key % workers == worker {
            let _left = read_word(points, words, place, key, LEVELS, edits)?;
        }
        return Ok(());
    }
    let word = words[place];
    let Named::Cell(cell) = named_by(word) else {
        return Ok(());
    };
    for k in 0..8u32 {
        let child = 8 * key + u64::from(k);
        let at = place_of_child(cell, k);
        read_dealt(points, words, at, child, depth - 1, worker, workers, edits)?;
    }
    Ok(())
}

/// The edits of one worker.
fn read_own(
    alloc: Global,
    points: &Points,
    words: &Vec<u64>,
    depth: u32,
    worker: u64,
    workers: u64,
) -> Result<Vec<Edit>, OutOfMemory>
    requires thinned { AreThinned points.now words.now.items }
    requires some { worker < workers }
    ensures inside { IfOk result (λ r. AreInside (length words.now.items) r.items) }
    ensures dealt { IfOk result (λ r. LeaveDealt points.now words.now.items (IsOfWorker workers worker) depth 1 [] r.items) }
{
    let mut edits = Vec::new(alloc);
    read_dealt(points, words, 0, 1, depth, worker, workers, &mut edits)?;
    Ok(edits)
}

/// The edits of the first so many workers, which read at the same time. The first worker is the calling
/// thread.
///
/// # Errors
///
/// `OutOfMemory` for want of memory.
#[cycle(reading)]
pub fn read_all<R: Threads + Sync>(
    rt: &R,
    alloc: Global,
    points: &Points,
    words: &Vec<u64>,
    depth: u32,
    count: u64,
    workers: u64,
) -> Result<Vec<Edit>, OutOfMemory>
    requires thinned { AreThinned points.now words.now.items }
    requires some { 1 ≤ count }
    requires most { count ≤ workers }
    ensures inside { IfOk result (λ r. AreInside (length words.now.items) r.items) }
    ensures dealt { IfOk result (λ r. LeaveDealt points.now words.now.items (IsOfFirst workers count) depth 1 [] r.items) }
{
    let worker = count - 1;
    if worker == 0 {
        let first = read_own(alloc, points, words, depth, 0, workers)?;
        return Ok(first);
    }
    let own = || -> Result<Vec<Edit>, OutOfMemory>
        requires { AreThinned points.now words.now.items × (worker < workers) }
        ensures { IfOk result (λ r. AreInside (length words.entry.now.items) r.items × LeaveDealt points.entry.now words.entry.now.items (IsOfWorker workers worker) depth 1 [] r.items) }
    { read_own(alloc, points, words, depth, worker, workers) };
    let others = || -> Result<Vec<Edit>, OutOfMemory>
        requires { IsSync R.row × AreThinned points.now words.now.items × (1 ≤ worker) × (worker ≤ workers) }
        ensures { IfOk result (λ r. AreInside (length words.entry.now.items) r.items × LeaveDealt points.entry.now words.entry.now.items (IsOfFirst workers worker) depth 1 [] r.items) }
    { read_all(rt, alloc, points, words, depth, worker, workers) };
    let (own, others) = thread::join(rt, own, others);
    let own = own?;
    let mut edits = others?;
    edits.extend_from_slice(&own)?;
    Ok(edits)
}
