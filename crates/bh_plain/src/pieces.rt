//! The plain slow program for the pieces of space.

ghost use Rattle.std.specs.Prelude.{ℕ, ◌≡◌, ◌-◌, ◌*◌, ◌/◌, ◌^◌, ◌<◌, ◌≤◌, ◌++◌, All, IfOk, OnOk, length, sum_by};
ghost use Rattle.octant_code.specs.Points.{site_at};
ghost use Rattle.octant_code.specs.declared.limits.TheConstants.{MOST_BODIES};
ghost use Rattle.bh_model.specs.Pieces.{cubes_from, dealt, octants_of, pieces};
ghost use Rattle.bh_model.specs.Plans.{HasWorkers};

use crate::trees::bodies_in_octant;
use bh_model::Piece;
use octant_code::{LEVELS, OutOfMemory, Points};
use std::alloc::Global;

/// The pieces of a list of bodies for 1 to 64 workers, as the definition has it: a cube that holds a
/// body and few enough is one, and else its eight octants' pieces come one after another.
pub fn plain_pieces(
    alloc: Global,
    points: &Points,
    workers: u32,
    bodies: &[u32],
) -> Result<Vec<Piece>, OutOfMemory>
    requires within { All (λ n. n < length points.now) bodies.now }
    requires few { length bodies.now ≤ MOST_BODIES }
    requires workers { HasWorkers workers }
    ensures { IfOk result (λ v. v.items ≡ pieces (site_at points.now) workers bodies.now) }
{
    let whole = bodies.len() as u32;
    let most = (whole / (4 * workers)).max(1);
    let mut cubes: Vec<(u64, u32)> = Vec::new(alloc);
    push_cubes(alloc, points, bodies, most, 0, 1, &mut cubes)?;
    deal(alloc, &cubes, whole, workers)
}

/// Appends the cubes that hold a body and aren't divided, of the bodies of one cube of a level.
fn push_cubes(
    alloc: Global,
    points: &Points,
    bodies: &[u32],
    most: u32,
    level: u32,
    key: u64,
    out: &mut Vec<(u64, u32)>,
) -> Result<(), OutOfMemory>
    requires within { All (λ n. n < length points.now) bodies.now }
    requires few { length bodies.now ≤ MOST_BODIES }
    requires shallow { level ≤ 21 }
    requires key_small { key < 2 * 8 ^ level }
    ensures { OnOk result (out.new.items ≡ out.old.items ++ cubes_from (octants_of (site_at points.now)) most (21 - level) level key bodies.now) }
{
    let count = bodies.len() as u32;
    if count == 0 {
        return Ok(());
    }
    if count <= most || level == LEVELS {
        out.push((key, count))?;
        return Ok(());
    }
    for k in 0..8u32 {
        let part = bodies_in_octant(alloc, points, bodies, level, k)?;
        let child = 8 * key + u64::from(k);
        push_cubes(alloc, points, &part, most, level + 1, child, out)?;
    }
    Ok(())
}

/// The cubes as pieces, each with the worker that is the share of the bodies before it.
fn deal(
    alloc: Global,
    cubes: &[(u64, u32)],
    whole: u32,
    workers: u32,
) -> Result<Vec<Piece>, OutOfMemory>
    requires workers { HasWorkers workers }
    requires whole { sum_by (λ (c : ℕ × ℕ). c.1) cubes.now ≡ whole }
    ensures { IfOk result (λ v. v.items ≡ dealt whole workers 0 cubes.now) }
{
    let mut pieces: Vec<Piece> = Vec::new(alloc);
    let mut before: u32 = 0;
    for (key, count) in cubes {
        pieces.push(Piece {
            key: *key,
            count: *count,
            worker: share_of(before, workers, whole),
        })?;
        before += *count;
    }
    Ok(pieces)
}

/// The worker of a piece before which some of all bodies stand, and 0 where there is no body.
fn share_of(before: u32, workers: u32, whole: u32) -> u32
    requires { before ≤ whole }
    ensures { result ≡ before * workers / whole }
{
    if whole == 0 {
        return 0;
    }
    (u64::from(before) * u64::from(workers) / u64::from(whole)) as u32
}
