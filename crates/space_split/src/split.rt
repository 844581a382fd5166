//! The pieces of space.

ghost use Rattle.std.specs.Prelude.{ℕ, ◌≡◌, ◌≤◌, ◌↔◌, All, IsTrue, IfOk, length, map, sum_by};
ghost use Rattle.octant_code.specs.Points.{site_at};
ghost use Rattle.octant_code.specs.declared.limits.TheConstants.{MOST_BODIES};
ghost use Rattle.bh_model.specs.Bodies.{numbers};
ghost use Rattle.bh_model.specs.Pieces.{cubes_from, dealt, piece_limit, pieces};
ghost use Rattle.bh_model.specs.Plans.{HasWorkers};
ghost use Rattle.space_split.specs.Ranges.{AreCodes, AreCubesOf, octant_of_code, pair_of};
ghost use Rattle.space_split.specs.Rows.{AreWhole};

use crate::codes::{codes_alone, sorted_bodies};
use crate::count::divide;
use crate::cube::Cube;
use bh_model::Piece;
use octant_code::{LEVELS, OutOfMemory, Points};
use std::alloc::Global;
use std::thread::Threads;

/// The pieces of space for 1 to 64 workers, in tree order: the cubes that hold a body and at most
/// max(1, N / (4 * workers)) of all N bodies, and lie in no other such cube. A piece belongs to the
/// worker that is the share of the bodies before it, rounded down.
///
/// # Errors
///
/// `OutOfMemory` for want of memory.
pub fn pieces<R: Threads + Sync>(
    rt: &R,
    alloc: Global,
    points: &Points,
    workers: u32,
) -> Result<Vec<Piece>, OutOfMemory>
    requires { HasWorkers workers }
    ensures { IfOk result (λ v. v.items ≡ pieces (site_at points.now) workers (numbers (length points.now))) }
{
    let count = points.len();
    let bodies = sorted_bodies(rt, alloc, points, workers)?;
    let codes = codes_alone(alloc, &bodies)?;
    let cubes = undivided_cubes(rt, alloc, &codes, piece_limit(count, workers), workers)?;
    deal(alloc, &cubes, count, workers)
}

/// The greatest number of bodies of a cube that isn't divided.
pub fn piece_limit(count: u32, workers: u32) -> u32
    requires { HasWorkers workers }
    ensures { result ≡ piece_limit count workers }
{
    (count / (4 * workers)).max(1)
}

/// The cubes that hold a body and aren't divided, in tree order.
pub fn undivided_cubes<R: Threads + Sync>(
    rt: &R,
    alloc: Global,
    codes: &[u64],
    most: u32,
    workers: u32,
) -> Result<Vec<Cube>, OutOfMemory>
    requires workers { HasWorkers workers }
    requires few { length codes.now ≤ MOST_BODIES }
    requires rule { AreCodes codes.now }
    ensures cubes { IfOk result (λ v. map pair_of v.items ≡ cubes_from octant_of_code most 21 0 1 codes.now) }
    ensures some { IfOk result (λ v. All (λ c. 1 ≤ c.count) v.items) }
    ensures whole { IfOk result (λ v. AreWhole codes.now v.items) }
{
    let mut cubes = first_cube(alloc, codes)?;
    for level in 0..LEVELS {
        if are_small(&cubes, most) {
            return Ok(cubes);
        }
        cubes = divide(rt, alloc, codes, &cubes, most, level, workers)?;
    }
    Ok(cubes)
}

/// The whole cube, where there is a body.
fn first_cube(alloc: Global, codes: &[u64]) -> Result<Vec<Cube>, OutOfMemory>
    requires few { length codes.now ≤ MOST_BODIES }
    requires rule { AreCodes codes.now }
    ensures cubes { IfOk result (λ v. (most : ℕ) → AreCubesOf codes.now most 0 v.items) }
    ensures whole { IfOk result (λ v. AreWhole codes.now v.items) }
{
    let mut cubes: Vec<Cube> = Vec::new(alloc);
    if !codes.is_empty() {
        cubes.push(Cube {
            key: 1,
            start: 0,
            count: codes.len() as u32,
        })?;
    }
    Ok(cubes)
}

/// Whether each cube has at most `most` bodies.
fn are_small(cubes: &[Cube], most: u32) -> bool
    ensures { IsTrue result ↔ All (λ c. c.count ≤ most) cubes.now }
{
    cubes.iter().all(|cube| cube.count <= most)
}

/// The cubes as pieces, each with its worker.
pub fn deal(
    alloc: Global,
    cubes: &[Cube],
    whole: u32,
    workers: u32,
) -> Result<Vec<Piece>, OutOfMemory>
    requires workers { HasWorkers workers }
    requires some { All (λ c. 1 ≤ c.count) cubes.now }
    requires whole { sum_by (λ c. c.count) cubes.now ≡ whole }
    ensures { IfOk result (λ v. v.items ≡ dealt whole workers 0 (map pair_of cubes.now)) }
{
    let mut pieces: Vec<Piece> = Vec::with_capacity(alloc, cubes.len())?;
    let mut before: u32 = 0;
    for cube in cubes {
        let worker = (u64::from(before) * u64::from(workers) / u64::from(whole)) as u32;
        pieces.push(Piece {
            key: cube.key,
            count: cube.count,
            worker,
        })?;
        before += cube.count;
    }
    Ok(pieces)
}
