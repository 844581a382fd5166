//! A point of the cube.

use crate::limits::SIDE;
use std::marker::Model;

/// A point of the cube by its whole-number coordinates, each from 0 to 2^21 - 1.
///
/// Contracts see it as a `Site`, the record of its coordinates.
#[derive(Clone, Copy, Debug, PartialEq, Eq, Hash)]
pub struct Point {
    pub x: u32,
    pub y: u32,
    pub z: u32,
}

impl Model for Point {
    ghost use Rattle.octant_code.specs.Space.{Site, IsInCube};

    ghost Value = { Site };

    ghost view = { λ p. record { x = p.x; y = p.y; z = p.z } };

    ghost invariant = { λ p. IsInCube (record { x = p.x; y = p.y; z = p.z }) };

    ghost inverse = { λ s. record { x = s.x; y = s.y; z = s.z } };
}

impl Point {
    ghost use Rattle.std.specs.Prelude.{◌≡◌, ◌↔◌, IfSome, IsSome};
    ghost use Rattle.octant_code.specs.Space.{IsInCube, packed};

    /// The point of three coordinates: None exactly where one of them is 2^21 or more.
    pub fn new(x: u32, y: u32, z: u32) -> Option<Point>
        ensures inside { IsSome result ↔ IsInCube (record { x = x; y = y; z = z }) }
        ensures point { IfSome result (λ p. p ≡ record { x = x; y = y; z = z }) }
    {
        if x < SIDE && y < SIDE && z < SIDE {
            Some(Point { x, y, z })
        } else {
            None
        }
    }

    /// The coordinates side by side in one number of 63 bits, x highest and z lowest: another number
    /// for each point. A map hashes and compares it faster than three coordinates.
    #[inline]
    pub fn packed(self) -> u64
        ensures { result ≡ packed self }
    {
        let side = u64::from(SIDE);
        (u64::from(self.x) * side + u64::from(self.y)) * side + u64::from(self.z)
    }
}
