//! Codes of points, seven levels at a time.

ghost use Rattle.std.specs.Prelude.{◌≡◌, ◌<◌, ◌^◌};
ghost use Rattle.octant_code.specs.Space.{key_of};
ghost use Rattle.space_split.specs.Spreads.{AreSpreads, octants_by};

use octant_code::Point;

/// How many numbers have seven bits.
const GROUP: usize = 128;

/// How many keys of cubes there are for each key seven levels above.
const KEYS: u64 = 2_097_152;

/// The bits of each number of seven bits, each two places apart from the next.
#[tactic(auto, using(crate::proofs::Spread::spread_none))]
pub fn spreads() -> [u32; GROUP]
    ensures { AreSpreads result }
{
    let mut table = [0u32; GROUP];
    for k in 1..GROUP {
        table[k] = 8 * table[k / 2] + k as u32 % 2;
    }
    table
}

/// The octants of seven levels one after another, by the lowest bits of the coordinates.
#[inline]
fn octants(spreads: &[u32; GROUP], x: u32, y: u32, z: u32) -> u64
    requires { AreSpreads spreads.now }
    ensures value { result ≡ octants_by x y z }
    ensures small { result < 2 ^ 21 }
{
    let x = u64::from(spreads[x as usize % GROUP]);
    let y = u64::from(spreads[y as usize % GROUP]);
    let z = u64::from(spreads[z as usize % GROUP]);
    4 * x + 2 * y + z
}

/// The code of a point: its key at the last level.
#[inline]
pub fn code_of(spreads: &[u32; GROUP], p: Point) -> u64
    requires { AreSpreads spreads.now }
    ensures { result ≡ key_of p 21 }
{
    let top = octants(spreads, p.x >> 14, p.y >> 14, p.z >> 14);
    let middle = octants(spreads, p.x >> 7, p.y >> 7, p.z >> 7);
    let bottom = octants(spreads, p.x, p.y, p.z);
    ((KEYS + top) * KEYS + middle) * KEYS + bottom
}
