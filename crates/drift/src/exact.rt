//! Where bodies are exactly, and how fast they move.

use octant_code::Point;
use std::marker::Model;

/// An exact position, in units of 2^-32 of a position unit: each coordinate is below 2^53.
///
/// Contracts see it as the record of its coordinates.
#[derive(Clone, Copy, Debug, PartialEq, Eq)]
pub struct Exact {
    pub x: u64,
    pub y: u64,
    pub z: u64,
}

impl Model for Exact {
    ghost use Rattle.bh_model.specs.Motions as motions;
    ghost use Rattle.drift.specs.Ranges.{IsExact};

    ghost Value = { motions.Exact };

    ghost view = { λ e. record { x = e.x; y = e.y; z = e.z } };

    ghost invariant = { λ e. IsExact (record { x = e.x; y = e.y; z = e.z }) };

    ghost inverse = { λ e. record { x = e.x; y = e.y; z = e.z } };
}

impl Exact {
    ghost use Rattle.std.specs.Prelude.{◌≡◌};
    ghost use Rattle.octant_code.specs.Space.{IsInCube};
    ghost use Rattle.drift.specs.Motions.{whole};

    /// The point of the cube that the position lies in: its coordinates without their fractions.
    #[inline]
    pub fn whole(self) -> Point
        ensures value { result ≡ whole self }
        ensures inside { IsInCube result }
    {
        Point {
            x: (self.x >> 32) as u32,
            y: (self.y >> 32) as u32,
            z: (self.z >> 32) as u32,
        }
    }
}

/// A velocity: how much an exact position changes in a step, at most 2^50 along each axis and in
/// either direction.
///
/// Contracts see it as the record of its parts.
#[derive(Clone, Copy, Debug, PartialEq, Eq)]
pub struct Velocity {
    pub x: i64,
    pub y: i64,
    pub z: i64,
}

impl Model for Velocity {
    ghost use Rattle.bh_model.specs.Motions as motions;
    ghost use Rattle.drift.specs.Ranges.{IsVelocity};

    ghost Value = { motions.Velocity };

    ghost view = { λ v. record { x = v.x; y = v.y; z = v.z } };

    ghost invariant = { λ v. IsVelocity (record { x = v.x; y = v.y; z = v.z }) };

    ghost inverse = { λ v. record { x = v.x; y = v.y; z = v.z } };
}

impl Velocity {
    ghost use Rattle.std.specs.Prelude.{◌≡◌};
    ghost use Rattle.drift.specs.Motions.{at_rest};

    /// The velocity of a body that doesn't move.
    #[inline]
    pub fn none() -> Velocity
        ensures { result ≡ at_rest }
    {
        Velocity { x: 0, y: 0, z: 0 }
    }
}
