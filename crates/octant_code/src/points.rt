//! Lists of distinct points.

ghost use Rattle.std.specs.Prelude.{All};
ghost use Rattle.octant_code.specs.Distinct.{IsTested};
ghost use Rattle.octant_code.specs.Space.{IsInCube};

use crate::limits::MOST_BODIES;
use crate::memory::OutOfMemory;
use crate::point::Point;
use std::alloc::Global;
use std::collections::HashMap;
use std::marker::Model;

/// What testing a list of points answers.
#[derive(Clone, Copy, Debug, PartialEq, Eq)]
pub enum Distinct {
    /// There are at most 65,536 points, and all are distinct.
    Yes,
    /// There are more than 65,536 points.
    TooMany,
    /// Two points are equal: the second number is the least position whose point also stands at a
    /// lower one, and the first number is that lower position.
    Same(u32, u32),
}

/// At most 65,536 points, all distinct. Contracts see it as the list of their sites.
#[derive(Debug, Drop)]
pub struct Points {
    list: Vec<Point>,
}

// Each point of a list lies in the cube: what one look at each of them tells.
fn all_in_cube(list: &[Point])
    ensures { All IsInCube list.now }
{
    for p in list {
        let _x = p.x;
    }
}

impl Model for Points {
    ghost use Rattle.std.specs.Prelude.{List};
    ghost use Rattle.octant_code.specs.Space.{Site};
    ghost use Rattle.octant_code.specs.Points.{ArePoints};

    ghost Value = { List Site };

    ghost view = { λ p. p.list.items };

    ghost invariant = { λ p. ArePoints p.list.items };
}

impl Points {
    ghost use Rattle.std.specs.Prelude.{◌≡◌, ◌==◌, ◌<◌, ◌≤◌, IfOk, length};
    ghost use Rattle.octant_code.specs.Space.{IsInCube};
    ghost use Rattle.octant_code.specs.Points.{AreApart, ArePoints, site_at};

    /// Whether a list is one of at most 65,536 distinct points. It takes memory for a map of the
    /// points, and one look-up in it for each.
    pub fn test(alloc: Global, list: &[Point]) -> Result<Distinct, OutOfMemory>
        ensures { IfOk result (IsTested list.now) }
    {
        if list.len() > MOST_BODIES as usize {
            return Ok(Distinct::TooMany);
        }
        all_in_cube(list);
        let mut seen: HashMap<u64, u32> = HashMap::with_capacity(alloc, list.len())?;
        for (i, p) in list.iter().enumerate() {
            match seen.insert(p.packed(), i as u32)? {
                None => {}
                Some(first) => return Ok(Distinct::Same(first, i as u32)),
            }
        }
        Ok(Distinct::Yes)
    }

    /// The points of a list, which it takes over.
    pub fn of(list: Vec<Point>) -> Points
        requires few { length list.items ≤ MOST_BODIES }
        requires apart { AreApart list.items }
        ensures { result ≡ list.items }
    {
        all_in_cube(&list);
        Points { list }
    }

    /// How many points there are.
    pub fn len(&self) -> u32
        ensures value { result ≡ length self.now }
        ensures rule { ArePoints self.now }
    {
        self.list.len() as u32
    }

    /// Whether there is no point.
    pub fn is_empty(&self) -> bool
        ensures { result ≡ (length self.now == 0) }
    {
        self.list.is_empty()
    }

    /// The point of a number.
    pub fn at(&self, n: u32) -> Point
        requires { n < length self.now }
        ensures value { result ≡ site_at self.now n }
        ensures inside { IsInCube result }
    {
        let p = self.list[n as usize];
        let _x = p.x;
        p
    }
}
