//! The bodies of the records that were read so far.

ghost use Rattle.std.specs.Prelude.{◌≡◌, ◌≤◌, length};
ghost use Rattle.scene_file.specs.Bodies.{number_at};

use crate::bodies::{Bodies, Body, points_of};
use crate::fault::SceneFault;
use octant_code::{Distinct, MOST_BODIES, OutOfMemory, Point, Points};
use std::alloc::Global;
use std::marker::Model;

// The number of the first body at a point.
fn number_at(bodies: &[Body], at: Point) -> Option<u32>
    requires { length bodies.now ≤ MOST_BODIES }
    ensures { result ≡ number_at bodies.now at }
{
    for (i, body) in bodies.iter().enumerate() {
        if body.at == at {
            return Some(i as u32);
        }
    }
    None
}

// The bound below which the total mass stays.
const MASS_BOUND: u64 = 1 << 40;

/// A list of bodies, at whatever points, that grows by one record after another. Whether the points
/// are apart is tested behind the last record: look-ups that follow one another wait for memory
/// together, and those between records one by one, which takes more than twice as long.
#[derive(Drop)]
pub struct Gathering {
    list: Vec<Body>,
    total: u64,
}

impl Model for Gathering {
    ghost use Rattle.std.specs.Prelude.{List};
    ghost use Rattle.scene_file.specs.declared.bodies.Body.{Body};
    ghost use Rattle.scene_file.specs.Gathering.{AreGathered};

    ghost Value = { List Body };

    ghost view = { λ g. g.list.items };

    ghost invariant = { λ g. AreGathered g.list.items g.total };
}

impl Gathering {
    ghost use Rattle.std.specs.Prelude.{◌≡◌, [], ◌<◌, Err, IfOk, OnErr, false};
    ghost use Rattle.octant_code.specs.Points.{AreApart};
    ghost use Rattle.octant_code.specs.Space.{IsInCube};
    ghost use Rattle.scene_file.specs.Bodies.{AreBodies, sites_of};
    ghost use Rattle.scene_file.specs.Gathering.{IsPointTest, gathered};
    ghost use Rattle.scene_file.specs.Scene.{SoFar, is_still, with_body};
    ghost use Rattle.scene_file.specs.Reading.{Adds};

    /// No body, with room for so many.
    pub fn new(alloc: Global, room: usize) -> Result<Gathering, OutOfMemory>
        ensures { IfOk result (λ gathering. gathering ≡ []) }
    {
        Ok(Gathering {
            list: Vec::with_capacity(alloc, room)?,
            total: 0,
        })
    }

    /// Puts the body of a record, whose number is told, behind those of the records before it.
    pub fn join(&mut self, number: u32, body: &Body) -> Result<(), SceneFault>
        requires mass { 0 < body.now.mass }
        requires inside { IsInCube body.now.at }
        ensures step { Adds self.old self.new (gathered number self.old body.now) result }
        ensures kept { OnErr result (self.new ≡ self.old) }
    {
        if self.list.len() >= MOST_BODIES as usize {
            return Err(SceneFault::TooMany(number));
        }
        let total = self.total + u64::from(body.mass);
        if total >= MASS_BOUND {
            return Err(SceneFault::MassTotal(number));
        }
        if self.list.push(*body).is_err() {
            return Err(SceneFault::OutOfMemory);
        }
        self.total = total;
        Ok(())
    }

    /// The fault of a body behind a move or a pass, whose record's number is told.
    pub fn late(&self, number: u32, body: &Body) -> SceneFault
        ensures { (so_far : SoFar) → so_far.bodies ≡ self.now → is_still so_far ≡ false → with_body number so_far body.now ≡ Err result }
    {
        if MOST_BODIES as usize <= self.list.len() {
            return SceneFault::TooMany(number);
        }
        if self.total + u64::from(body.mass) >= MASS_BOUND {
            return SceneFault::MassTotal(number);
        }
        match number_at(&self.list, body.at) {
            Some(earlier) => SceneFault::Coincident(number, earlier, self.list.len() as u32),
            None => SceneFault::BodyAfterMove(number),
        }
    }

    /// The bodies, one after another, where no two are at one point.
    pub fn bodies(&self) -> &[Body]
        requires { AreApart (sites_of self.now) }
        ensures value { result.now ≡ self.now }
        ensures rule { AreBodies self.now }
    {
        &self.list
    }

    /// Tests whether no two bodies are at one point. The fault names the first record whose body is
    /// at the point of an earlier one.
    pub fn test_points(&self, alloc: Global) -> Result<(), SceneFault>
        ensures { IsPointTest self.now result }
    {
        let points = points_of(alloc, &self.list)?;
        match Points::test(alloc, &points)? {
            Distinct::Yes => Ok(()),
            Distinct::Same(earlier, later) => {
                Err(SceneFault::Coincident(later + 1, earlier, later))
            }
            Distinct::TooMany => unreachable!(),
        }
    }

    /// The bodies that were gathered, where no two are at one point.
    pub fn finish(self) -> Bodies
        requires { AreApart (sites_of self) }
        ensures { result ≡ self }
    {
        Bodies::of(self.list)
    }
}
