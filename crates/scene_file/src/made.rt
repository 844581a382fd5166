//! Scenes that are made of a seed, always the same.

ghost use Rattle.std.specs.Prelude.{◌≡◌, ◌+◌, ◌-◌, ◌*◌, ◌/◌, ◌%◌, ◌^◌, ◌<◌, ◌≤◌, ℕ, IfOk, []};
ghost use Rattle.octant_code.specs.Points.{site_at};
ghost use Rattle.octant_code.specs.Space.{IsInCube, octant_of};
ghost use Rattle.scene_file.specs.Bodies.{sites_of};
ghost use Rattle.scene_file.specs.Made.{code_of, codes_of, every_third, made_bodies, made_body, site_of_code};

use crate::bodies::{Bodies, Body};
use crate::passes::Passes;
use crate::scene::Scene;
use octant_code::{LEVELS, MOST_BODIES, OutOfMemory, Point};
use std::alloc::Global;

/// The shape of a scene that is made.
#[derive(Clone, Copy, Debug, PartialEq, Eq)]
pub enum Shape {
    /// Bodies all over the cube.
    Uniform,
    /// Bodies crowded in the corner of side 2^15 at the origin.
    Corner,
}

/// What the number of a body is multiplied by in its code: 2^64 over the golden ratio, and odd.
pub const MULTIPLIER: u64 = 11_400_714_819_323_198_485;

// How many codes a shape has.
fn codes_of(shape: Shape) -> u128
    ensures { result ≡ codes_of shape }
{
    match shape {
        Shape::Uniform => 1 << 63,
        Shape::Corner => 1 << 45,
    }
}

// The number whose binary digits are every third one of a code.
fn every_third(code: u64) -> u32
    ensures value { result ≡ every_third 21 code }
    ensures small { result < 2 ^ 21 }
{
    let mut number = 0u32;
    for level in 0..LEVELS {
        let digit = code >> (3 * (LEVELS - 1 - level));
        number = 2 * number + (digit % 2) as u32;
    }
    number
}

// The body of a number.
fn made_body(shape: Shape, seed: u64, i: u32) -> Body
    ensures value { result ≡ made_body shape seed i }
    ensures inside { IsInCube result.at }
{
    let code = ((u128::from(i) * u128::from(MULTIPLIER) + u128::from(seed))
        % codes_of(shape)) as u64;
    let at = Point {
        x: every_third(code / 4),
        y: every_third(code / 2),
        z: every_third(code),
    };
    Body {
        mass: 1 + i % 16,
        at,
    }
}

/// The scene of a count of bodies, a seed and a shape. The code of body `i` is
/// `i * MULTIPLIER + seed`, modulo 2^63 for `Uniform` and modulo 2^45 for `Corner`; its 21 octal
/// digits, from the highest on, are the octants of the body's point at the levels 0 to 20. The mass of
/// body `i` is `1 + i mod 16`. The scene has no passes.
///
/// # Errors
///
/// `OutOfMemory` for want of memory.
pub fn made_scene(alloc: Global, count: u32, seed: u64, shape: Shape) -> Result<Scene, OutOfMemory>
    requires { count ≤ MOST_BODIES }
    ensures bodies { IfOk result (λ scene. scene.bodies ≡ made_bodies count seed shape) }
    ensures passes { IfOk result (λ scene. scene.passes ≡ []) }
    ensures octants { IfOk result (λ scene. (i level : ℕ) → i < count → level < LEVELS → octant_of (site_at (sites_of scene.bodies) i) level ≡ code_of shape seed i / 8 ^ (20 - level) % 8) }
{
    let mut list = Vec::with_capacity(alloc, count as usize)?;
    for i in 0..count {
        list.push(made_body(shape, seed, i))?;
    }
    Ok(Scene {
        bodies: Bodies::of(list),
        passes: Passes::none(alloc),
    })
}
