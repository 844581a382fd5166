//! The search for the bodies that leave their cells.

ghost use Rattle.std.specs.Prelude.{◌≡◌, ◌<◌, ◌++◌, ◌∷◌, [], All, IfOk, length, map};
ghost use Rattle.std.specs.Thread.{IsSync};
ghost use Rattle.tree_passes.specs.Counting.{all_of};
ghost use Rattle.update_build.specs.Moving.{ArePlacesOf, AreWordsOf, IsMover};
ghost use Rattle.update_build.specs.Staying.{movers_in};

use crate::leaves::leaf_of;
use octant_code::{OutOfMemory, Points, key_at};
use std::alloc::Global;
use std::thread;
use std::thread::Threads;

/// The bodies of a share that leave their cells, and the places of their words.
#[derive(Drop)]
pub struct Found {
    pub movers: Vec<u32>,
    pub places: Vec<u32>,
}

/// What was found in each of some shares, in their order.
#[derive(Drop)]
pub struct FoundInAll {
    pub movers: Vec<Vec<u32>>,
    pub places: Vec<Vec<u32>>,
}

/// The place of a body's word, where the body leaves its cell. No way is gone down for a body that did
/// not move.
fn mover(words: &Vec<u64>, old: &Points, new: &Points, n: u32) -> Option<u32>
    requires words { AreWordsOf old.now words.now.items }
    requires many { length old.now ≡ length new.now }
    requires there { n < length new.now }
    ensures { IsMover old.now new.now words.now.items n result }
{
    let before = old.at(n);
    let after = new.at(n);
    if before == after {
        return None;
    }
    let leaf = leaf_of(words, old, n);
    if key_at(before, leaf.level) == key_at(after, leaf.level) {
        return None;
    }
    Some(leaf.place as u32)
}

/// The bodies of a share that leave their cells.
fn search_share(
    alloc: Global,
    words: &Vec<u64>,
    old: &Points,
    new: &Points,
    share: &[u32],
) -> Result<Found, OutOfMemory>
    requires words { AreWordsOf old.now words.now.items }
    requires many { length old.now ≡ length new.now }
    requires there { All (λ n. n < length new.now) share.now }
    ensures movers { IfOk result (λ r. r.movers.items ≡ movers_in old.now new.now share.now) }
    ensures places { IfOk result (λ r. ArePlacesOf words.now.items r.movers.items r.places.items) }
{
    let mut movers = Vec::new(alloc);
    let mut places = Vec::new(alloc);
    for i in 0..share.len() {
        if let Some(place) = mover(words, old, new, share[i]) {
            movers.push(share[i])?;
            places.push(place)?;
        }
    }
    Ok(Found { movers, places })
}

/// Nothing was found, in no share.
fn none_found(alloc: Global) -> FoundInAll
    ensures { (result.movers.items ≡ []) × (result.places.items ≡ []) }
{
    FoundInAll {
        movers: Vec::new(alloc),
        places: Vec::new(alloc),
    }
}

/// What was found in some shares and in one more.
fn with_share(all: FoundInAll, own: Found) -> Result<FoundInAll, OutOfMemory>
    ensures movers { IfOk result (λ r. r.movers.items ≡ all.movers.items ++ (own.movers ∷ [])) }
    ensures places { IfOk result (λ r. r.places.items ≡ all.places.items ++ (own.places ∷ [])) }
{
    let mut all = all;
    all.movers.push(own.movers)?;
    all.places.push(own.places)?;
    Ok(all)
}

/// The bodies of each share that leave their cells, which one worker a share looks for, all at the same
/// time. The first share is searched by the calling thread.
///
/// # Errors
///
/// `OutOfMemory` for want of memory.
#[cycle(search)]
pub fn search_shares<R: Threads + Sync>(
    rt: &R,
    alloc: Global,
    words: &Vec<u64>,
    old: &Points,
    new: &Points,
    shares: &[Vec<u32>],
) -> Result<FoundInAll, OutOfMemory>
    requires words { AreWordsOf old.now words.now.items }
    requires many { length old.now ≡ length new.now }
    requires there { All (λ s. All (λ n. n < length new.now) s.items) shares.now }
    ensures movers { IfOk result (λ r. map (λ s. s.items) r.movers.items ≡ map (movers_in old.now new.now) (map (λ s. s.items) shares.now)) }
    ensures places { IfOk result (λ r. ArePlacesOf words.now.items (all_of (λ l. l.items) r.movers.items) (all_of (λ l. l.items) r.places.items)) }
{
    let Some((last, front)) = shares.split_last() else {
        return Ok(none_found(alloc));
    };
    if front.is_empty() {
        let own = search_share(alloc, words, old, new, last)?;
        return with_share(none_found(alloc), own);
    }
    let own = || -> Result<Found, OutOfMemory>
        requires { AreWordsOf old.now words.now.items × (length old.now ≡ length new.now) × All (λ n. n < length new.now) last.now.items }
        ensures { IfOk result (λ r. (r.movers.items ≡ movers_in old.entry.now new.entry.now last.entry.now.items) × ArePlacesOf words.entry.now.items r.movers.items r.places.items) }
    { search_share(alloc, words, old, new, last) };
    let others = || -> Result<FoundInAll, OutOfMemory>
        requires { IsSync R.row × AreWordsOf old.now words.now.items × (length old.now ≡ length new.now) × All (λ s. All (λ n. n < length new.now) s.items) front.now }
        ensures { IfOk result (λ r. (map (λ s. s.items) r.movers.items ≡ map (movers_in old.entry.now new.entry.now) (map (λ s. s.items) front.entry.now)) × ArePlacesOf words.entry.now.items (all_of (λ l. l.items) r.movers.items) (all_of (λ l. l.items) r.places.items)) }
    { search_shares(rt, alloc, words, old, new, front) };
    let (own, others) = thread::join(rt, own, others);
    let own = own?;
    let all = others?;
    with_share(all, own)
}
