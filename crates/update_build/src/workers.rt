//! The workers of a sweep: each empties the words of its own list, all at the same time.

ghost use Rattle.std.specs.Prelude.{◌≡◌, ◌<◌, ◌≤◌, ℕ, IfOk, length};
ghost use Rattle.std.specs.Slots.{slots_items, slots_len, IsFull};
ghost use Rattle.std.specs.Thread.{IsSync};
ghost use Rattle.tree_passes.specs.Counting.{all_of, times};
ghost use Rattle.update_build.specs.Sweeping.{AreSwept, CanEmpty, HasEmptied};

use crate::lists::all_members;
use crate::sweep::{
    SweepPass, SweepWords, close_sweep, empty_word, join_sweeps, open_sweep, split_sweep,
};
use atomic_table::Closed;
use octant_code::OutOfMemory;
use std::alloc::Global;
use std::thread;
use std::thread::Threads;

/// Empties the words of a list.
fn empty_words(table: &SweepWords, pass: &mut SweepPass, places: &[u32])
    requires table { pass.old.table_id ≡ table.now.table_id }
    requires can { CanEmpty table.now.table_id.words places.now pass.old.me.0 }
    ensures table { (pass.new.table_id ≡ pass.old.table_id) × (pass.new.me.1 ≡ pass.old.me.1) }
    ensures emptied { HasEmptied places.now pass.old.me.0 pass.new.me.0 }
{
    for i in 0..places.len() {
        empty_word(table, pass, places[i]);
    }
}

/// One worker a list empties the words of its list, all at the same time. The first list is worked by the
/// calling thread. It takes no memory.
#[cycle(sweeping)]
fn empty_lists<R: Threads + Sync>(
    rt: &R,
    table: &SweepWords,
    pass: &mut SweepPass,
    lists: &[Vec<u32>],
)
    requires table { (pass.old.table_id ≡ table.now.table_id) × (0 < table.now.table_id.words) }
    requires can { CanEmpty table.now.table_id.words (all_of (λ l. l.items) lists.now) pass.old.me.0 }
    ensures table { (pass.new.table_id ≡ pass.old.table_id) × (pass.new.me.1 ≡ pass.old.me.1) }
    ensures emptied { HasEmptied (all_of (λ l. l.items) lists.now) pass.old.me.0 pass.new.me.0 }
{
    let Some((last, front)) = lists.split_last() else {
        return;
    };
    if front.is_empty() {
        empty_words(table, pass, last);
        return;
    }
    let mut own = split_sweep(table, pass, last);
    empty_both(rt, table, &mut own, last, pass, front);
    join_sweeps(table, pass, own);
}

// A function of its own, so that what the two threads require is what this function is given.
#[cycle(sweeping)]
fn empty_both<R: Threads + Sync>(
    rt: &R,
    table: &SweepWords,
    own: &mut SweepPass,
    last: &[u32],
    pass: &mut SweepPass,
    front: &[Vec<u32>],
)
    requires own { (own.old.table_id ≡ table.now.table_id) × CanEmpty table.now.table_id.words last.now own.old.me.0 }
    requires pass { (pass.old.table_id ≡ table.now.table_id) × (0 < table.now.table_id.words) × CanEmpty table.now.table_id.words (all_of (λ l. l.items) front.now) pass.old.me.0 }
    ensures own { (own.new.table_id ≡ own.old.table_id) × (own.new.me.1 ≡ own.old.me.1) × HasEmptied last.now own.old.me.0 own.new.me.0 }
    ensures pass { (pass.new.table_id ≡ pass.old.table_id) × (pass.new.me.1 ≡ pass.old.me.1) × HasEmptied (all_of (λ l. l.items) front.now) pass.old.me.0 pass.new.me.0 }
{
    thread::join_mut(
        rt,
        &mut ||
            requires { (own.now.table_id ≡ table.now.table_id) × CanEmpty table.now.table_id.words last.now own.now.me.0 }
            ensures { (own.exit.now.table_id ≡ own.entry.now.table_id) × (own.exit.now.me.1 ≡ own.entry.now.me.1) × HasEmptied last.entry.now own.entry.now.me.0 own.exit.now.me.0 }
        { empty_words(table, own, last) },
        &mut ||
            requires { IsSync R.row × (pass.now.table_id ≡ table.now.table_id) × (0 < table.now.table_id.words) × CanEmpty table.now.table_id.words (all_of (λ l. l.items) front.now) pass.now.me.0 }
            ensures { (pass.exit.now.table_id ≡ pass.entry.now.table_id) × (pass.exit.now.me.1 ≡ pass.entry.now.me.1) × HasEmptied (all_of (λ l. l.items) front.entry.now) pass.entry.now.me.0 pass.exit.now.me.0 }
        { empty_lists(rt, table, pass, front) },
    );
}

/// Copies the words of a closed table.
fn copy_words(closed: &Closed<(), Global>, words: &mut Vec<u64>)
    requires full { IsFull closed.now.words }
    requires long { slots_len closed.now.words ≡ length words.old.items }
    ensures { words.new.items ≡ slots_items closed.now.words }
{
    for i in 0..words.len() {
        words[i] = closed.word(i);
    }
}

/// The words with those at the places of some lists emptied, which one worker a list does, all at the
/// same time.
///
/// # Errors
///
/// `OutOfMemory` for want of memory, all of which is taken before the first word is emptied.
pub fn sweep<R: Threads + Sync>(
    rt: &R,
    alloc: Global,
    words: Vec<u64>,
    lists: &[Vec<u32>],
) -> Result<Vec<u64>, OutOfMemory>
    requires some { 0 < length words.items }
    requires inside { (i : ℕ) → 1 ≤ times i (all_of (λ l. l.items) lists.now) → i < length words.items }
    ensures { IfOk result (λ w. AreSwept words.items w.items (all_of (λ l. l.items) lists.now)) }
{
    let all = all_members(alloc, lists)?;
    let (table, mut pass) = open_sweep(alloc, &words, &all)?;
    empty_lists(rt, &table.shared, &mut pass, lists);
    let closed = close_sweep(table, pass);
    let mut words = words;
    copy_words(&closed, &mut words);
    closed.free();
    Ok(words)
}
