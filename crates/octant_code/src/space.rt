//! The octants that a point lies in, and the keys of the cubes around it.

ghost use Rattle.std.specs.Prelude.{◌≡◌, ◌↔◌, ◌*◌, ◌<◌, ◌≤◌, ◌^◌, IsTrue};
ghost use Rattle.octant_code.specs.Prefixes.{IsKeyOfLevel};
ghost use Rattle.octant_code.specs.Space.{IsKey, IsUnder, key_of, octant_of, squared_distance, squared_gap};

use crate::limits::LEVELS;
use crate::point::Point;

/// The octant, 0 to 7, that the point lies in at a level, 0 to 20: 4 for the upper half along x,
/// 2 along y and 1 along z (Barnes and Hut, Nature 324, 1986; the numbers are this project's own).
pub fn octant(p: Point, level: u32) -> u32
    requires { level < LEVELS }
    ensures value { result ≡ octant_of p level }
    ensures small { result < 8 }
{
    let shift = LEVELS - 1 - level;
    let x = (p.x >> shift) % 2;
    let y = (p.y >> shift) % 2;
    let z = (p.z >> shift) % 2;
    4 * x + 2 * y + z
}

/// The key of the cube at a level, 0 to 21, that holds the point: 1 for the whole cube, and 8 times
/// the key of the cube above plus the octant in it for every other.
pub fn key_at(p: Point, level: u32) -> u64
    requires { level ≤ LEVELS }
    ensures { result ≡ key_of p level }
{
    let mut key: u64 = 1;
    for i in 0..level {
        key = 8 * key + u64::from(octant(p, i));
    }
    key
}

/// The level, 0 to 21, of the cube of a key.
pub fn level_of(key: u64) -> u32
    requires { IsKey key }
    ensures level { IsKeyOfLevel result key }
    ensures shallow { result ≤ LEVELS }
{
    let mut rest = key;
    for level in 0..LEVELS {
        if rest < 8 {
            return level;
        }
        rest /= 8;
    }
    LEVELS
}

/// Whether a point lies in the cube of a key.
pub fn key_has(key: u64, p: Point) -> bool
    requires { IsKey key }
    ensures { IsTrue result ↔ IsUnder key p }
{
    let mut here: u64 = 1;
    for i in 0..LEVELS {
        if here == key {
            return true;
        }
        here = 8 * here + u64::from(octant(p, i));
    }
    here == key
}

// The squared gap between two coordinates. Its root has a sign, so that a caller who takes the gap
// with its sign from the same coordinates needs no other subtraction.
#[inline]
fn squared_gap(from: u32, to: u32) -> u64
    requires from_fits { from < 2 ^ 21 }
    requires to_fits { to < 2 ^ 21 }
    ensures value { result ≡ squared_gap from to }
    ensures small { result < 2 ^ 42 }
{
    let gap = i64::from(to) - i64::from(from);
    (gap * gap).cast_unsigned()
}

/// The squared distance of two points, below 2^44.
#[inline]
pub fn squared_distance(p: Point, q: Point) -> u64
    ensures value { result ≡ squared_distance p q }
    ensures small { result < 2 ^ 44 }
{
    squared_gap(p.x, q.x) + squared_gap(p.y, q.y) + squared_gap(p.z, q.z)
}
