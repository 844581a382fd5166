//! Ranks in order, by as many threads as there are workers.

ghost use Rattle.std.specs.Prelude.{◌≡◌, ◌<◌, ◌≤◌, length};
ghost use Rattle.std.specs.List.Sorted.{IsPermutation};
ghost use Rattle.std.specs.Thread.{IsSync};

use std::marker::Sync;
use std::thread::{Threads, join_mut};

/// Fewer ranks than these are in order before another thread has begun.
const LEAST: usize = 16_384;

/// How many ranks are looked at to part them all.
const SAMPLES: usize = 256;

/// Puts ranks in order. They are parted by a divider until each worker has a part, and then the parts
/// are sorted at the same time. One worker alone sorts them in the calling thread.
#[cycle(parts)]
pub fn order_ranks<R: Threads + Sync>(rt: &R, workers: u32, ranks: &mut [u64])
    ensures { IsPermutation ranks.old ranks.new }
{
    if workers > 1 && ranks.len() >= LEAST {
        let divider = divider_of(ranks, workers / 2, workers);
        let count = part(ranks, divider);
        let (low, high) = ranks.split_at_mut(count);
        order_both(rt, workers, low, high);
    } else {
        ranks.sort_unstable();
    }
}

/// Puts the ranks below a divider and the others in order, at the same time.
#[cycle(parts)]
fn order_both<R: Threads + Sync>(rt: &R, workers: u32, low: &mut [u64], high: &mut [u64])
    requires { 1 < workers }
    ensures low { IsPermutation low.old low.new }
    ensures high { IsPermutation high.old high.new }
{
    let mut first = ||
        requires { IsSync R.row × (1 < workers) }
        ensures { IsPermutation low.entry.now low.exit.now }
    { order_ranks(rt, workers / 2, low) };
    let mut second = ||
        requires { IsSync R.row × (1 < workers) }
        ensures { IsPermutation high.entry.now high.exit.now }
    { order_ranks(rt, workers - workers / 2, high) };
    join_mut(rt, &mut first, &mut second);
}

/// A rank below which lie about as many of all ranks as `some` of so many workers are to sort. Nothing
/// but time depends on it.
fn divider_of(ranks: &[u64], some: u32, workers: u32) -> u64
    requires long { 256 ≤ length ranks.now }
    requires some { some < workers }
{
    let mut sample = [0u64; SAMPLES];
    let step = ranks.len() / SAMPLES;
    for k in 0..SAMPLES {
        sample[k] = ranks[k * step];
    }
    sample.sort_unstable();
    sample[SAMPLES * some as usize / workers as usize]
}

/// Moves the ranks below a divider before the others, and says how many they are. There is no branch,
/// since it would be foreseen only half the time.
fn part(ranks: &mut [u64], divider: u64) -> usize
    ensures permutation { IsPermutation ranks.old ranks.new }
    ensures within { result ≤ length ranks.old }
{
    let mut count = 0;
    for i in 0..ranks.len() {
        let is_below = ranks[i] < divider;
        ranks.swap(i, count);
        count += usize::from(is_below);
    }
    count
}
