//! The bodies in the order of their points' codes.

ghost use Rattle.std.specs.Prelude.{◌≡◌, ◌<◌, ◌≤◌, All, IfOk, length, map};
ghost use Rattle.octant_code.specs.Points.{site_at};
ghost use Rattle.octant_code.specs.Space.{key_of};
ghost use Rattle.octant_code.specs.declared.limits.TheConstants.{MOST_BODIES};
ghost use Rattle.bh_model.specs.Bodies.{numbers};
ghost use Rattle.octree.specs.Ranks.{body_of_rank};
ghost use Rattle.space_split.specs.Sorted.{AreSorted, coded_in};

use crate::interleave::{code_of, spreads};
use crate::order::order_ranks;
use octant_code::{MOST_BODIES, OutOfMemory, Points};
use octree::body_of;
use std::alloc::Global;
use std::marker::Sync;
use std::thread::Threads;

/// How many numbers of bodies there are.
const BODIES: u64 = MOST_BODIES as u64;

/// A body with its point's code, which is the key of the point's cube at the last level.
#[derive(Clone, Copy, Debug, PartialEq, Eq)]
pub struct Coded {
    pub code: u64,
    pub body: u32,
}

/// All bodies with their codes, the least code first, so that the bodies of each cube stand side by
/// side. Ranks, of one word each, bring them into that order but for those whose codes differ in their
/// last bits alone; only where such bodies stand the other way round does the last sort move any. The
/// workers sort the ranks.
pub fn sorted_bodies<R: Threads + Sync>(
    rt: &R,
    alloc: Global,
    points: &Points,
    workers: u32,
) -> Result<Vec<Coded>, OutOfMemory>
    ensures { IfOk result (λ v. AreSorted points.now v.items) }
{
    let _few = points.len();
    let codes = codes_of(alloc, points)?;
    let mut ranks = ranks_of(alloc, &codes)?;
    order_ranks(rt, workers, ranks.as_mut_slice());
    let mut bodies = coded_bodies(alloc, &codes, &ranks)?;
    bodies.sort_unstable_by_key(|b: &Coded| b.code);
    Ok(bodies)
}

/// The codes of all points, by their numbers. One thread makes them in less time than it takes to start
/// others.
fn codes_of(alloc: Global, points: &Points) -> Result<Vec<u64>, OutOfMemory>
    ensures { IfOk result (λ v. v.items ≡ map (λ n. key_of (site_at points.now n) 21) (numbers (length points.now))) }
{
    let spreads = spreads();
    let mut codes: Vec<u64> = Vec::with_capacity(alloc, points.len() as usize)?;
    for n in 0..points.len() {
        codes.push(code_of(&spreads, points.at(n)))?;
    }
    Ok(codes)
}

/// How many leading bits all codes have in common, at most 63. Nothing but time depends on it.
fn common_bits(codes: &[u64]) -> u32
    ensures { result < 64 }
{
    let mut differ = 0u64;
    for n in 0..codes.len() {
        differ |= codes[n] ^ codes[0];
    }
    differ.leading_zeros().min(63)
}

/// The ranks of bodies, by their numbers: 48 bits of the code behind those that all codes have in
/// common, and the number.
fn ranks_of(alloc: Global, codes: &[u64]) -> Result<Vec<u64>, OutOfMemory>
    requires { length codes.now ≤ MOST_BODIES }
    ensures { IfOk result (λ v. map body_of_rank v.items ≡ numbers (length codes.now)) }
{
    let mut ranks: Vec<u64> = Vec::with_capacity(alloc, codes.len())?;
    let common = common_bits(codes);
    for n in 0..codes.len() {
        ranks.push((codes[n] << common) / BODIES * BODIES + n as u64)?;
    }
    Ok(ranks)
}

/// The bodies of ranks with their codes, in the order of the ranks.
fn coded_bodies(alloc: Global, codes: &[u64], ranks: &[u64]) -> Result<Vec<Coded>, OutOfMemory>
    requires { All (λ r. body_of_rank r < length codes.now) ranks.now }
    ensures { IfOk result (λ v. v.items ≡ map (λ r. coded_in codes.now (body_of_rank r)) ranks.now) }
{
    let mut bodies: Vec<Coded> = Vec::with_capacity(alloc, ranks.len())?;
    for rank in ranks {
        let body = body_of(*rank);
        let code = codes[body as usize];
        bodies.push(Coded { code, body })?;
    }
    Ok(bodies)
}

/// The codes of bodies, in their order.
pub fn codes_alone(alloc: Global, bodies: &[Coded]) -> Result<Vec<u64>, OutOfMemory>
    ensures { IfOk result (λ v. v.items ≡ map (λ b. b.code) bodies.now) }
{
    let mut codes: Vec<u64> = Vec::with_capacity(alloc, bodies.len())?;
    for coded in bodies {
        codes.push(coded.code)?;
    }
    Ok(codes)
}
