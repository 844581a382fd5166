//! A step of all bodies.

ghost use Rattle.std.specs.Prelude.{◌≡◌, ◌≤◌, List, [], length, nat_eq};
ghost use Rattle.std.specs.HashSet.{contains, spare};
ghost use Rattle.std.specs.Vec.{vec_capacity};
ghost use Rattle.scene_file.specs.Bodies.{sites_of};
ghost use Rattle.scene_file.specs.Moves.{IsPass, shifted};
ghost use Rattle.scene_file.specs.declared.bodies.Body.{Body};
ghost use Rattle.drift.specs.Motions.{moves_between, started, stepped, whole_points};
ghost use Rattle.drift.specs.Taken.{AreHeld};

use crate::body_motion::BodyMotion;
use crate::exact::{Exact, Velocity};
use crate::turn::turn;
use bh_model::Pull;
use scene_file::{Body, Move};
use std::collections::HashSet;

/// The motion of a body before its first step.
pub fn started(body: &Body) -> BodyMotion
    ensures { result ≡ started body.now }
{
    let at = body.at;
    BodyMotion {
        exact: Exact {
            x: u64::from(at.x) << 32,
            y: u64::from(at.y) << 32,
            z: u64::from(at.z) << 32,
        },
        velocity: Velocity::none(),
    }
}

/// Each body takes its turn, in the order of their numbers. There is room for as many taken points
/// and moves more as there are bodies.
pub fn take_turns(
    bodies: &mut [BodyMotion],
    taken: &mut HashSet<u64>,
    pulls: &[Pull],
    moves: &mut Vec<Move>,
)
    requires one_each { length pulls.now ≡ length bodies.old }
    requires held { AreHeld (contains nat_eq taken.old) bodies.old }
    requires room { length bodies.old ≤ spare taken.old }
    requires empty { moves.old.items ≡ [] }
    requires moves_room { length bodies.old ≤ vec_capacity moves.old }
    ensures stepped { bodies.new ≡ stepped pulls.now bodies.old }
    ensures moves { moves.new.items ≡ moves_between bodies.old bodies.new }
    ensures shifted { (scene : List Body) → sites_of scene ≡ whole_points bodies.old
        → IsPass scene moves.new.items × (sites_of (shifted moves.new.items scene) ≡ whole_points bodies.new) }
    ensures held { AreHeld (contains nat_eq taken.new) bodies.new }
{
    for (n, pull) in pulls.iter().enumerate() {
        if let Some(to) = turn(taken, pull, &mut bodies[n]) {
            moves.push_reserved(Move { body: n as u32, to });
        }
    }
}
