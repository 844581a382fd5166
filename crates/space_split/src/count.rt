//! How many bodies of each cube lie in each of its octants.

ghost use Rattle.std.specs.Prelude.{ℕ, ◌≡◌, ◌<◌, ◌≤◌, ◌+◌, ◌*◌, ◌^◌, All, IfOk, OnOk, length, flat_map, slice_index, slice_index_or, ◌++◌};
ghost use Rattle.std.specs.List.{AllZip};
ghost use Rattle.octant_code.specs.declared.limits.TheConstants.{LEVELS, MOST_BODIES};
ghost use Rattle.bh_model.specs.Plans.{HasWorkers};
ghost use Rattle.space_split.specs.Ranges.{IsRange, codes_of, division_of, octant_count};

use crate::cube::Cube;
use octant_code::{LEVELS, OutOfMemory};
use rayon::prelude::*;
use std::alloc::Global;
use std::thread::Threads;

/// The cubes of the next level: in place of each cube with more than `most` bodies those of its
/// octants that hold a body. The bodies of different cubes are counted at the same time, and each
/// body once.
pub fn divide<R: Threads + Sync>(
    rt: &R,
    alloc: Global,
    codes: &[u64],
    cubes: &[Cube],
    most: u32,
    level: u32,
    workers: u32,
) -> Result<Vec<Cube>, OutOfMemory>
    requires deep { level < LEVELS }
    requires few { length codes.now ≤ MOST_BODIES }
    requires workers { HasWorkers workers }
    requires cubes { All (IsRange codes.now most level) cubes.now }
    ensures { IfOk result (λ v. v.items ≡ flat_map (division_of codes.now most level) cubes.now) }
{
    let counts = count_all(rt, alloc, codes, cubes, most, level, workers)?;
    let mut next: Vec<Cube> = Vec::with_capacity(alloc, cubes.len())?;
    for (i, cube) in cubes.iter().enumerate() {
        push_division(codes, *cube, &counts[i], most, level, &mut next)?;
    }
    Ok(next)
}

/// How many bodies a thread counts at least, on the average: it has counted fewer before another has begun.
const LEAST_COUNTED: u64 = 32_768;

/// How many cubes a thread takes at least: a worker's share of them, and as many as have enough bodies that
/// still count. Nothing but time depends on it.
fn least_cubes(cubes: &[Cube], most: u32, workers: u32) -> usize
    requires { HasWorkers workers }
{
    let mut counted: u64 = 0;
    for cube in cubes {
        if cube.count > most {
            counted = counted.saturating_add(u64::from(cube.count));
        }
    }
    let enough = (cubes.len() as u64).saturating_mul(LEAST_COUNTED) / counted.max(1);
    (cubes.len() / workers as usize).max(enough as usize).max(1)
}

/// How many bodies each cube with more than `most` bodies has in each octant.
fn count_all<R: Threads + Sync>(
    rt: &R,
    alloc: Global,
    codes: &[u64],
    cubes: &[Cube],
    most: u32,
    level: u32,
    workers: u32,
) -> Result<Vec<[u32; 8]>, OutOfMemory>
    requires deep { level < LEVELS }
    requires few { length codes.now ≤ MOST_BODIES }
    requires workers { HasWorkers workers }
    requires cubes { All (IsRange codes.now most level) cubes.now }
    ensures { IfOk result (λ v. AllZip (λ cube counts. most < cube.count → (k : ℕ) → k < 8 → slice_index counts k ≡ octant_count (codes_of codes.now cube) level k) cubes.now v.items) }
{
    let counts: Vec<[u32; 8]> = cubes
        .par_iter()
        .with_min_len(least_cubes(cubes, most, workers))
        .map(
            |cube: &Cube| -> [u32; 8]
                requires { (level < LEVELS) × (length codes.now ≤ MOST_BODIES) × IsRange codes.now most level cube.now }
                ensures { most < cube.now.count → (k : ℕ) → k < 8 → slice_index result k ≡ octant_count (codes_of codes.entry.now cube.now) level k }
            { counts_of(codes, *cube, most, level) },
        )
        .collect(rt, alloc)?;
    Ok(counts)
}

/// How many bodies a cube with more than `most` bodies has in each octant.
fn counts_of(codes: &[u64], cube: Cube, most: u32, level: u32) -> [u32; 8]
    requires deep { level < LEVELS }
    requires few { length codes.now ≤ MOST_BODIES }
    requires cube { IsRange codes.now most level cube }
    ensures { most < cube.count → (k : ℕ) → k < 8 → slice_index result k ≡ octant_count (codes_of codes.now cube) level k }
{
    if cube.count <= most {
        return [0; 8];
    }
    let start = cube.start as usize;
    let end = start + cube.count as usize;
    octant_counts(&codes[start..end], level)
}

/// How many bodies of some have each octant at a level. The octant that was counted last has its count
/// outside the list, since the codes of an octant mostly come one after another.
fn octant_counts(codes: &[u64], level: u32) -> [u32; 8]
    requires deep { level < LEVELS }
    requires few { length codes.now ≤ MOST_BODIES }
    ensures { (k : ℕ) → k < 8 → slice_index result k ≡ octant_count codes.now level k }
{
    let shift = 3 * (LEVELS - 1 - level);
    let mut counts = [0u32; 8];
    let mut last = 0usize;
    let mut run = 0u32;
    for code in codes {
        let k = ((*code >> shift) % 8) as usize;
        if k != last {
            counts[last] = run;
            last = k;
            run = counts[k];
        }
        run += 1;
    }
    counts[last] = run;
    counts
}

/// Appends what a cube gives: its octants that hold a body where it has more than `most` bodies, and
/// itself else.
fn push_division(
    codes: &[u64],
    cube: Cube,
    counts: &[u32; 8],
    most: u32,
    level: u32,
    next: &mut Vec<Cube>,
) -> Result<(), OutOfMemory>
    requires deep { level < LEVELS }
    requires few { length codes.now ≤ MOST_BODIES }
    requires cube { IsRange codes.now most level cube }
    requires counted { most < cube.count → (k : ℕ) → k < 8 → slice_index counts.now k ≡ octant_count (codes_of codes.now cube) level k }
    ensures { OnOk result (next.new.items ≡ next.old.items ++ division_of codes.now most level cube) }
{
    if cube.count <= most {
        next.push(cube)?;
        return Ok(());
    }
    let mut start = cube.start;
    for k in 0..8u32 {
        let count = counts[k as usize];
        if count > 0 {
            let key = 8 * cube.key + u64::from(k);
            next.push(Cube { key, start, count })?;
        }
        start += count;
    }
    Ok(())
}
