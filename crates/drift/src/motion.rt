//! The motion of the bodies of a scene.

use crate::body_motion::BodyMotion;
use crate::exact::{Exact, Velocity};
use crate::turns::{started, take_turns};
use bh_model::Pull;
use octant_code::OutOfMemory;
use scene_file::{Bodies, Move};
use std::alloc::Global;
use std::collections::HashSet;
use std::marker::Model;

/// Where the bodies of a scene are exactly, and how fast they move, from frame to frame. Contracts see
/// it as the list of the motion of each body, in the order of the bodies' numbers.
#[derive(Drop)]
pub struct Motion {
    alloc: Global,
    bodies: Vec<BodyMotion>,
    // The packed number of each body's whole point.
    taken: HashSet<u64>,
}

impl Model for Motion {
    ghost use Rattle.std.specs.Prelude.{List, nat_eq};
    ghost use Rattle.std.specs.HashSet.{contains};
    ghost use Rattle.drift.specs.declared.body_motion.BodyMotion.{BodyMotion};
    ghost use Rattle.drift.specs.Taken.{AreHeld};

    ghost Value = { List BodyMotion };

    ghost view = { λ m. m.bodies.items };

    ghost invariant = { λ m. AreHeld (contains nat_eq m.taken) m.bodies.items };
}

impl Motion {
    ghost use Rattle.std.specs.Prelude.{◌≡◌, ◌==◌, ◌<◌, List, IfOk, OnErr, OnOk, length};
    ghost use Rattle.octant_code.specs.Points.{AreApart};
    ghost use Rattle.scene_file.specs.Bodies.{sites_of};
    ghost use Rattle.scene_file.specs.Moves.{IsPass, shifted};
    ghost use Rattle.scene_file.specs.declared.bodies.Body.{Body};
    ghost use Rattle.drift.specs.Motions.{first_motion, motion_of, moves_between, stepped, whole_points};
    ghost use Rattle.drift.specs.Ranges.{IsExact, IsVelocity};

    /// The motion of bodies before their first step: each is exactly at its point, and at rest.
    ///
    /// # Errors
    ///
    /// `OutOfMemory` for want of memory.
    pub fn new(alloc: Global, bodies: &Bodies) -> Result<Motion, OutOfMemory>
        ensures bodies { IfOk result (λ m. m ≡ first_motion bodies.now) }
        ensures points { IfOk result (λ m. whole_points m ≡ sites_of bodies.now) }
    {
        let count = bodies.len();
        let mut list = Vec::with_capacity(alloc, count as usize)?;
        let mut taken = HashSet::with_capacity(alloc, 2 * count as usize)?;
        for n in 0..count {
            let body = bodies.get(n);
            list.push(started(&body))?;
            taken.insert(body.at.packed())?;
        }
        Ok(Motion {
            alloc,
            bodies: list,
            taken,
        })
    }

    /// A step with a pull for each body. It answers a move for each body whose whole point changed, in
    /// the order of the bodies' numbers, to its new whole point: a pass over bodies at the whole
    /// points before the step, after which they are at those after it.
    ///
    /// # Errors
    ///
    /// `OutOfMemory` for want of memory. The motion is as it was then.
    pub fn step(&mut self, pulls: &[Pull]) -> Result<Vec<Move>, OutOfMemory>
        requires { length pulls.now ≡ length self.old }
        ensures stepped { OnOk result (self.new ≡ stepped pulls.now self.old) }
        ensures moves { IfOk result (λ moves. moves.items ≡ moves_between self.old self.new) }
        ensures apart { AreApart (whole_points self.new) }
        ensures shifted { IfOk result (λ moves. (bodies : List Body) → sites_of bodies ≡ whole_points self.old
            → IsPass bodies moves.items × (sites_of (shifted moves.items bodies) ≡ whole_points self.new)) }
        ensures refused { OnErr result (self.new ≡ self.old) }
    {
        let mut moves = Vec::with_capacity(self.alloc, self.bodies.len())?;
        self.taken.reserve(self.bodies.len())?;
        take_turns(&mut self.bodies, &mut self.taken, pulls, &mut moves);
        Ok(moves)
    }

    /// How many bodies there are.
    pub fn len(&self) -> u32
        ensures { result ≡ length self.now }
    {
        self.bodies.len() as u32
    }

    /// Whether there is no body.
    pub fn is_empty(&self) -> bool
        ensures { result ≡ (length self.now == 0) }
    {
        self.bodies.is_empty()
    }

    /// Where the body of a number is exactly.
    pub fn exact(&self, n: u32) -> Exact
        requires { n < length self.now }
        ensures value { result ≡ (motion_of self.now n).exact }
        ensures inside { IsExact result }
    {
        let exact = self.bodies[n as usize].exact;
        let _x = exact.x;
        exact
    }

    /// How fast the body of a number moves.
    pub fn velocity(&self, n: u32) -> Velocity
        requires { n < length self.now }
        ensures value { result ≡ (motion_of self.now n).velocity }
        ensures slow { IsVelocity result }
    {
        let velocity = self.bodies[n as usize].velocity;
        let _x = velocity.x;
        velocity
    }
}
