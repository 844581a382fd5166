//! The turn of one body in a step.

ghost use Rattle.std.specs.Prelude.{◌≡◌, ◌+◌, ◌<◌, ◌≤◌, ◌++◌, ◌∷◌, ℕ, true, false, List, not, nat_eq, if◌then◌else◌};
ghost use Rattle.std.specs.HashSet.{contains, spare};
ghost use Rattle.octant_code.specs.Space.{Site};
ghost use Rattle.drift.specs.Motions.{after_turn, changed_point, target, whole};
ghost use Rattle.drift.specs.Taken.{AreTaken};

use crate::axis::{along, sped};
use crate::body_motion::BodyMotion;
use crate::exact::{Exact, Velocity};
use bh_model::Pull;
use octant_code::Point;
use std::collections::HashSet;

/// The motion of a body after a step with a pull, where nothing is in its way.
#[inline]
fn target(pull: &Pull, body: &BodyMotion) -> BodyMotion
    ensures { result ≡ target pull.now body.now }
{
    let Exact { x, y, z } = body.exact;
    let velocity = body.velocity;
    let x = along(x, sped(velocity.x, pull.ax));
    let y = along(y, sped(velocity.y, pull.ay));
    let z = along(z, sped(velocity.z, pull.az));
    BodyMotion {
        exact: Exact {
            x: x.0,
            y: y.0,
            z: z.0,
        },
        velocity: Velocity {
            x: x.1,
            y: y.1,
            z: z.1,
        },
    }
}

/// Takes the point of one packed number in place of that of another, unless it is taken already.
/// Answers whether it was free.
fn take(taken: &mut HashSet<u64>, from: u64, to: u64) -> bool
    requires room { 0 < spare taken.old }
    ensures free { result ≡ not (contains nat_eq taken.old to) }
    ensures points { (q : ℕ) → contains nat_eq taken.new q
        ≡ (if result then (if nat_eq from q then false else (if nat_eq to q then true else contains nat_eq taken.old q)) else contains nat_eq taken.old q) }
    ensures room { spare taken.old ≤ spare taken.new + 1 }
{
    let Ok(free) = taken.insert(to) else {
        unreachable!()
    };
    if free {
        taken.remove(&from);
    }
    free
}

/// The turn of a body. Answers its new whole point where that changed. The whole points of all bodies
/// are taken, and there is room for one more. A body that keeps its whole point meets no other there,
/// so nothing is looked up for it.
pub fn turn(taken: &mut HashSet<u64>, pull: &Pull, body: &mut BodyMotion) -> Option<Point>
    requires room { 0 < spare taken.old }
    ensures turned { (before rest : List Site) → AreTaken (contains nat_eq taken.old) (before ++ whole body.old.exact ∷ rest)
        → body.new ≡ after_turn (before ++ rest) pull.now body.old }
    ensures changed { result ≡ changed_point body.old body.new }
    ensures taken { (before rest : List Site) → AreTaken (contains nat_eq taken.old) (before ++ whole body.old.exact ∷ rest)
        → AreTaken (contains nat_eq taken.new) (before ++ whole body.new.exact ∷ rest) }
    ensures room { spare taken.old ≤ spare taken.new + 1 }
{
    let next = target(pull, body);
    let from = body.exact.whole().packed();
    let to = next.exact.whole();
    if from == to.packed() {
        *body = next;
        None
    } else if take(taken, from, to.packed()) {
        *body = next;
        Some(to)
    } else {
        body.velocity = Velocity::none();
        None
    }
}
