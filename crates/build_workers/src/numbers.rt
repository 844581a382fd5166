//! Numbers of bodies, and shares of them.

ghost use Rattle.std.specs.Prelude.{◌≡◌, ◌%◌, ◌<◌, ◌≤◌, ◌-◌, ◌^◌, get_or, length, map, min, IfOk};
ghost use Rattle.bh_model.specs.Bodies.{numbers};
ghost use Rattle.build_workers.specs.Shares.{owned, AreShares};

use octant_code::OutOfMemory;
use std::alloc::Global;

/// The numbers below a number.
///
/// # Errors
///
/// `OutOfMemory` for want of memory.
pub fn first_numbers(alloc: Global, count: u32) -> Result<Vec<u32>, OutOfMemory>
    ensures { IfOk result (λ v. v.items ≡ numbers count) }
{
    let mut list = Vec::with_capacity(alloc, count as usize)?;
    for n in 0..count {
        list.push(n)?;
    }
    Ok(list)
}

/// The numbers below a count that leave this remainder by the number of workers.
fn turns_of(alloc: Global, workers: u32, count: u32, w: u32) -> Result<Vec<u32>, OutOfMemory>
    requires { 0 < workers }
    ensures { IfOk result (λ v. v.items ≡ owned (λ n. n % workers) (numbers count) w) }
{
    let mut share = Vec::new(alloc);
    for n in 0..count {
        if n % workers == w {
            share.push(n)?;
        }
    }
    Ok(share)
}

/// The numbers below a count, dealt out to 1 to 64 workers in turn.
///
/// # Errors
///
/// `OutOfMemory` for want of memory.
pub fn deal_in_turns(alloc: Global, workers: u32, count: u32) -> Result<Vec<Vec<u32>>, OutOfMemory>
    requires { (0 < workers) × (workers ≤ 64) }
    ensures shares { IfOk result (λ v. AreShares count (map (λ s. s.items) v.items)) }
    ensures workers { IfOk result (λ v. length v.items ≡ workers) }
{
    let mut shares = Vec::new(alloc);
    for w in 0..workers {
        shares.push(turns_of(alloc, workers, count, w)?)?;
    }
    Ok(shares)
}

/// The numbers of the places where a list of owners has a worker, or a greater number where it is the
/// last worker.
fn numbers_of(alloc: Global, owners: &[u32], last: u32, w: u32) -> Result<Vec<u32>, OutOfMemory>
    requires { length owners.now < 2 ^ 32 }
    ensures { IfOk result (λ v. v.items ≡ owned (λ n. min (get_or owners.now n 0) last) (numbers (length owners.now)) w) }
{
    let mut share = Vec::new(alloc);
    for n in 0..owners.len() as u32 {
        if owners[n as usize].min(last) == w {
            share.push(n)?;
        }
    }
    Ok(share)
}

/// The numbers below the length of a list of owners, each dealt out to its owner, one of 1 to 64
/// workers. The last worker has those of greater owners.
///
/// # Errors
///
/// `OutOfMemory` for want of memory.
pub fn deal_to_owners(
    alloc: Global,
    workers: u32,
    owners: &[u32],
) -> Result<Vec<Vec<u32>>, OutOfMemory>
    requires workers { (0 < workers) × (workers ≤ 64) }
    requires few { length owners.now < 2 ^ 32 }
    ensures shares { IfOk result (λ v. AreShares (length owners.now) (map (λ s. s.items) v.items)) }
    ensures workers { IfOk result (λ v. length v.items ≡ workers) }
{
    let mut shares = Vec::new(alloc);
    for w in 0..workers {
        shares.push(numbers_of(alloc, owners, workers - 1, w)?)?;
    }
    Ok(shares)
}
