//! Bodies, and lists of them.

ghost use Rattle.std.specs.Prelude.{◌≡◌, ◌<◌, All, IfOk, length};
ghost use Rattle.octant_code.specs.Space.{IsInCube};
ghost use Rattle.scene_file.specs.Bodies.{sites_of};
ghost use Rattle.scene_file.specs.Moves.{shifted};

use crate::moves::Move;
use octant_code::{OutOfMemory, Point, Points};
use std::alloc::Global;
use std::marker::Model;

/// A mass at a point of the cube.
#[derive(Clone, Copy, Debug, PartialEq, Eq)]
pub struct Body {
    /// The mass, a whole number from 1.
    pub mass: u32,
    /// Where the body is.
    pub at: Point,
}

// The points of bodies, in the order in which these stand.
pub(crate) fn points_of(alloc: Global, bodies: &[Body]) -> Result<Vec<Point>, OutOfMemory>
    ensures { IfOk result (λ points. points.items ≡ sites_of bodies.now) }
{
    let mut list = Vec::with_capacity(alloc, bodies.len())?;
    for body in bodies {
        list.push(body.at)?;
    }
    Ok(list)
}

// Each move goes to a point of the cube: what one look at each of them tells.
pub(crate) fn all_in_cube(moves: &[Move])
    ensures { All (λ m. IsInCube m.to) moves.now }
{
    for step in moves {
        let _x = step.to.x;
    }
}

// A list with the same bodies.
pub(crate) fn copied(alloc: Global, bodies: &[Body]) -> Result<Vec<Body>, OutOfMemory>
    ensures { IfOk result (λ list. list.items ≡ bodies.now) }
{
    let mut list = Vec::with_capacity(alloc, bodies.len())?;
    list.extend_from_slice(bodies)?;
    Ok(list)
}

// Moves bodies.
fn shift(bodies: &mut [Body], moves: &[Move])
    requires { All (λ m. m.body < length bodies.old) moves.now }
    ensures { bodies.new ≡ shifted moves.now bodies.old }
{
    for step in moves {
        bodies[step.body as usize].at = step.to;
    }
}

// A list of bodies after moves.
pub(crate) fn moved_list(list: Vec<Body>, moves: &[Move]) -> Vec<Body>
    requires { All (λ m. m.body < length list.items) moves.now }
    ensures { result.items ≡ shifted moves.now list.items }
{
    let mut list = list;
    shift(&mut list, moves);
    list
}

/// At most 65,536 bodies with masses of at least 1, whose total is below 2^40, at distinct points.
/// Contracts see them as a list; a body's number is its place in it, from 0.
#[derive(Debug, Drop)]
pub struct Bodies {
    list: Vec<Body>,
}

impl Model for Bodies {
    ghost use Rattle.std.specs.Prelude.{List};
    ghost use Rattle.scene_file.specs.declared.bodies.Body.{Body};
    ghost use Rattle.scene_file.specs.Bodies.{AreBodies};

    ghost Value = { List Body };

    ghost view = { λ b. b.list.items };

    ghost invariant = { λ b. AreBodies b.list.items };
}

impl Bodies {
    ghost use Rattle.std.specs.Prelude.{◌≡◌, ◌<◌, IfOk, length};
    ghost use Rattle.octant_code.specs.Space.{IsInCube};
    ghost use Rattle.scene_file.specs.Bodies.{AreBodies, body_at, sites_of};
    ghost use Rattle.scene_file.specs.Moves.{IsPass, shifted};

    // The bodies of a list that keeps the rule.
    pub(crate) fn of(list: Vec<Body>) -> Bodies
        requires { AreBodies list.items }
        ensures { result ≡ list.items }
    {
        Bodies { list }
    }

    /// How many bodies there are.
    pub fn len(&self) -> u32
        ensures value { result ≡ length self.now }
        ensures rule { AreBodies self.now }
    {
        self.list.len() as u32
    }

    /// The body of a number, whose point lies in the cube.
    pub fn get(&self, n: u32) -> Body
        requires { n < length self.now }
        ensures value { result ≡ body_at self.now n }
        ensures inside { IsInCube result.at }
    {
        let body = self.list[n as usize];
        let _x = body.at.x;
        body
    }

    /// The bodies' points, in the order of the bodies' numbers.
    pub fn points(&self, alloc: Global) -> Result<Points, OutOfMemory>
        ensures { IfOk result (λ points. points ≡ sites_of self.now) }
    {
        Ok(Points::of(points_of(alloc, &self.list)?))
    }

    /// The bodies after the moves of a pass, which take effect all at once: the same masses, each at
    /// the point to which it was moved, or where it was.
    pub fn shifted(&self, alloc: Global, moves: &[Move]) -> Result<Bodies, OutOfMemory>
        requires { IsPass self.now moves.now }
        ensures { IfOk result (λ bodies. bodies ≡ shifted moves.now self.now) }
    {
        all_in_cube(moves);
        let list = copied(alloc, &self.list)?;
        Ok(Bodies {
            list: moved_list(list, moves),
        })
    }
}
