//! Moments of trees.

use octant_code::Point;

/// The sums over the bodies of a tree: of their masses, of mass times each coordinate, of 1 (their
/// number), and of their costs (Barnes and Hut, Nature 324, 1986; costs are those of costzones).
///
/// Over all bodies of a scene the mass is below 2^40, each product below 2^61, and the cost at most
/// 2^32.
#[derive(Clone, Copy, Debug, PartialEq, Eq)]
pub struct Moment {
    pub mass: u64,
    pub px: u64,
    pub py: u64,
    pub pz: u64,
    pub bodies: u32,
    pub cost: u64,
}

impl Moment {
    ghost use Rattle.std.specs.Prelude.{◌≡◌};
    ghost use Rattle.octant_code.specs.Space.{IsInCube};
    ghost use Rattle.bh_model.specs.Moments.{FitsWords, add_moment, centre_of, moment_of_body, no_moment};

    /// The moment of no body.
    pub fn none() -> Moment
        ensures { result ≡ no_moment }
    {
        Moment {
            mass: 0,
            px: 0,
            py: 0,
            pz: 0,
            bodies: 0,
            cost: 0,
        }
    }

    /// The moment of one body, by its mass, its point and its cost.
    pub fn of_body(mass: u32, at: Point, cost: u32) -> Moment
        ensures { result ≡ moment_of_body mass at cost }
    {
        let mass = u64::from(mass);
        Moment {
            mass,
            px: mass * u64::from(at.x),
            py: mass * u64::from(at.y),
            pz: mass * u64::from(at.z),
            bodies: 1,
            cost: u64::from(cost),
        }
    }

    /// The sums of the bodies of two moments, which fit the words.
    #[inline]
    pub fn plus(self, other: Moment) -> Moment
        requires { FitsWords (add_moment self other) }
        ensures { result ≡ add_moment self other }
    {
        Moment {
            mass: self.mass + other.mass,
            px: self.px + other.px,
            py: self.py + other.py,
            pz: self.pz + other.pz,
            bodies: self.bodies + other.bodies,
            cost: self.cost + other.cost,
        }
    }

    /// The centre of mass, each coordinate rounded down, and the origin where there is no mass.
    pub fn centre(self) -> Point
        requires { IsInCube (centre_of self) }
        ensures { result ≡ centre_of self }
    {
        if self.mass == 0 {
            return Point { x: 0, y: 0, z: 0 };
        }
        Point {
            x: (self.px / self.mass) as u32,
            y: (self.py / self.mass) as u32,
            z: (self.pz / self.mass) as u32,
        }
    }
}
