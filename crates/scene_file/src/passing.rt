//! The passes of the records that were read so far.

ghost use Rattle.std.specs.HashMap as hash;
ghost use Rattle.std.specs.Prelude.{◌≡◌, ◌<◌, ◌≤◌, All, IfOk, Some, [], ℕ, false, length, nat_eq};
ghost use Rattle.octant_code.specs.Points.{AreApart};
ghost use Rattle.octant_code.specs.Space.{IsInCube};
ghost use Rattle.scene_file.specs.Bodies.{body_at, sites_of};
ghost use Rattle.scene_file.specs.Passing.{IsFound, IsSettled, StandsAt, Takes};
ghost use Rattle.scene_file.specs.Scene.{first_meeting, names};

use crate::bodies::{Bodies, Body, copied, moved_list, points_of};
use crate::fault::SceneFault;
use crate::moves::{MOST_MOVES, MOST_PASSES, Move};
use crate::passes::Passes;
use crate::scene::Scene;
use octant_code::{Distinct, MOST_BODIES, OutOfMemory, Point, Points};
use std::alloc::Global;
use std::collections::HashMap;
use std::marker::Model;

// Whether there is a body of a number, and it is at a point.
#[tactic(auto, using(crate::proofs::Finding::stands_there, crate::proofs::Finding::stands_nowhere))]
fn stands_at(bodies: &[Body], n: u32, at: Point) -> bool
    ensures { StandsAt bodies.now n at result }
{
    let n = n as usize;
    n < bodies.len() && bodies[n].at == at
}

// Where the body of a number is.
#[tactic(auto, using(crate::proofs::Finding::body_read))]
fn point_of(bodies: &[Body], n: u32) -> Point
    requires { n < length bodies.now }
    ensures { result ≡ (body_at bodies.now n).at }
{
    bodies[n as usize].at
}

// Whether a body was found, another one than that of a number, and is at a point.
#[tactic(auto, using(crate::proofs::Finding::takes_none, crate::proofs::Finding::takes_itself, crate::proofs::Finding::takes_other))]
fn is_taken(bodies: &[Body], found: Option<u32>, n: u32, at: Point) -> bool
    ensures { Takes bodies.now found n at result }
{
    let Some(other) = found else {
        return false;
    };
    if other == n {
        return false;
    }
    stands_at(bodies, other, at)
}

// The number of the body at each point.
fn found_bodies(alloc: Global, bodies: &[Body]) -> Result<HashMap<u64, u32>, OutOfMemory>
    requires few { length bodies.now ≤ MOST_BODIES }
    requires apart { AreApart (sites_of bodies.now) }
    requires inside { All IsInCube (sites_of bodies.now) }
    ensures { IfOk result (λ numbers. (j : ℕ) → j < length bodies.now → IsFound (λ q. hash.get nat_eq numbers q) bodies.now j) }
{
    let mut numbers = HashMap::with_capacity(alloc, bodies.len())?;
    for (i, body) in bodies.iter().enumerate() {
        numbers.insert(body.at.packed(), i as u32)?;
    }
    Ok(numbers)
}

// Enters where the moved bodies are after a pass, and tells whether no two bodies are at one point.
// A body that was moved away may leave its number at the point where it was: whether the body of a
// number is there is asked of the bodies.
fn settle(
    present: &[Body],
    numbers: &mut HashMap<u64, u32>,
    moves: &[Move],
) -> Result<bool, OutOfMemory>
    requires known { All (λ m. m.body < length present.now) moves.now }
    requires inside { All IsInCube (sites_of present.now) }
    requires found { (j : ℕ) → j < length present.now → names moves.now j ≡ false → IsFound (λ q. hash.get nat_eq numbers.old q) present.now j }
    ensures { IfOk result (IsSettled (λ q. hash.get nat_eq numbers.new q) present.now) }
{
    for step in moves {
        let at = point_of(present, step.body);
        let found = numbers.insert(at.packed(), step.body)?;
        if is_taken(present, found, step.body, at) {
            return Ok(false);
        }
    }
    Ok(true)
}

// The first body at the point of one before it, and the first at that point, where there are such.
#[tactic(auto, using(crate::proofs::Meetings::first_meets))]
fn meeting(alloc: Global, present: &[Body]) -> Result<(u32, u32), OutOfMemory>
    requires few { length present.now ≤ MOST_BODIES }
    requires meet { AreApart (sites_of present.now) → ⊥ }
    ensures { IfOk result (λ pair. first_meeting [] present.now ≡ Some pair) }
{
    let points = points_of(alloc, present)?;
    match Points::test(alloc, &points)? {
        Distinct::Same(earlier, later) => Ok((earlier, later)),
        Distinct::Yes => unreachable!(),
        Distinct::TooMany => unreachable!(),
    }
}

/// What records gave whose bodies are at points of their own, behind which come moves and passes.
/// A pass is put on when it ends: that costs time by its moves, and not by the scene's bodies.
#[derive(Drop)]
pub struct Passing {
    bodies: Vec<Body>,
    // Where the bodies are after the passes that are ended.
    present: Vec<Body>,
    // The number of the body at each point; those of points that were left may stand there too.
    numbers: HashMap<u64, u32>,
    // For each body the number of the last pass that names it, from 1 on, or 0.
    named: Vec<u32>,
    moves: Vec<Move>,
    passes: Vec<Vec<Move>>,
    // How many moves there are in all.
    count: u32,
}

impl Model for Passing {
    ghost use Rattle.std.specs.Prelude.{map, nat_eq};
    ghost use Rattle.std.specs.HashMap as hash;
    ghost use Rattle.scene_file.specs.Scene.{SoFar};
    ghost use Rattle.scene_file.specs.Passing.{IsPassing};

    ghost Value = { SoFar };

    ghost view = { λ p. record { bodies = p.bodies.items; passes = map (λ v. v.items) p.passes.items; moves = p.moves.items } };

    ghost invariant = { λ p. IsPassing (record { bodies = p.bodies.items; passes = map (λ v. v.items) p.passes.items; moves = p.moves.items })
        p.present.items (λ q. hash.get nat_eq p.numbers q) p.named.items p.count };
}

impl Passing {
    ghost use Rattle.std.specs.Prelude.{◌≡◌, [], ◌++◌, ◌∷◌, IfOk, OnErr, length};
    ghost use Rattle.octant_code.specs.Space.{IsInCube};
    ghost use Rattle.scene_file.specs.Bodies.{AreBodies};
    ghost use Rattle.scene_file.specs.Scene.{Reads, closed, ended, with_move, with_pass};
    ghost use Rattle.scene_file.specs.Reading.{Adds};

    /// The bodies, and neither a move nor a pass.
    pub fn new(alloc: Global, bodies: &[Body]) -> Result<Passing, OutOfMemory>
        requires { AreBodies bodies.now }
        ensures { IfOk result (λ passing. passing ≡ record { bodies = bodies.now; passes = []; moves = [] }) }
    {
        Ok(Passing {
            bodies: copied(alloc, bodies)?,
            present: copied(alloc, bodies)?,
            numbers: found_bodies(alloc, bodies)?,
            named: vec![in alloc; 0u32; bodies.len()]?,
            moves: Vec::new(alloc),
            passes: Vec::new(alloc),
            count: 0,
        })
    }

    /// Puts the move of a record, whose number is told, behind the others of its pass.
    pub fn add(&mut self, number: u32, step: &Move) -> Result<(), SceneFault>
        requires { IsInCube step.now.to }
        ensures step { Adds self.old self.new (with_move number self.old step.now) result }
        ensures kept { OnErr result (self.new ≡ self.old) }
    {
        if self.count >= MOST_MOVES {
            return Err(SceneFault::TooMany(number));
        }
        let n = step.body as usize;
        if n >= self.named.len() {
            return Err(SceneFault::UnknownBody(number));
        }
        let pass = self.passes.len() as u32 + 1;
        if self.named[n] == pass {
            return Err(SceneFault::MovedTwice(number, step.body));
        }
        match self.moves.push(*step) {
            Ok(()) => {}
            Err(_) => return Err(SceneFault::OutOfMemory),
        }
        self.named[n] = pass;
        self.count += 1;
        Ok(())
    }

    /// Ends the pass that is open, as the record of this number says.
    pub fn close(self, alloc: Global, number: u32) -> Result<Passing, SceneFault>
        ensures { Reads result (with_pass number self) }
    {
        let Passing {
            bodies,
            present,
            mut numbers,
            named,
            moves,
            mut passes,
            count,
        } = self;
        if passes.len() >= MOST_PASSES as usize {
            return Err(SceneFault::TooMany(number));
        }
        let present = moved_list(present, &moves);
        let settled = settle(&present, &mut numbers, &moves)?;
        if !settled {
            let (earlier, later) = meeting(alloc, &present)?;
            return Err(SceneFault::PassCoincident(number, earlier, later));
        }
        match passes.push(moves) {
            Ok(()) => {}
            Err(_) => return Err(SceneFault::OutOfMemory),
        }
        Ok(Passing {
            bodies,
            present,
            numbers,
            named,
            moves: Vec::new(alloc),
            passes,
            count,
        })
    }

    // The scene, where no pass is open.
    fn scene(self) -> Scene
        ensures { result ≡ ended self }
    {
        Scene {
            bodies: Bodies::of(self.bodies),
            passes: Passes::of(self.passes),
        }
    }

    /// The scene at the end of the file, which ends the pass that is open as a record of this number
    /// would. Where no move stands in it, the end of the file ends no pass.
    pub fn finish(self, alloc: Global, number: u32) -> Result<Scene, SceneFault>
        ensures { Reads result (closed number self) }
    {
        if self.moves.is_empty() {
            return Ok(self.scene());
        }
        match self.close(alloc, number) {
            Ok(last) => Ok(last.scene()),
            Err(fault) => Err(fault),
        }
    }
}
