//! The probe of the sum of the pulls.

ghost use Rattle.std.specs.Prelude.{◌≡◌, ◌-◌, ◌^◌};
ghost use Rattle.bh_model.specs.Pulls.{IsWithin};
ghost use Rattle.probe.specs.States.{momentum_opening, next_push};
ghost use Rattle.probe.specs.declared.kind.Kind.TheVariants as kind;

use crate::frame::Frame;
use crate::kind::{Kind, Verdict};
use crate::probe::Probe;
use crate::put::{next_count, put_named};
use octant_code::OutOfMemory;
use std::marker::Model;

/// How far from 0 a sum of pushes may go.
const MOST_PUSH: i128 = 1 << 126;

// A sum of pushes that goes on, within 2^126.
fn next_push(sum: i128, push: i128) -> i128
    requires sum { IsWithin (2 ^ 126) sum }
    requires push { IsWithin (2 ^ 120 - 1) push }
    ensures value { result ≡ next_push sum push }
    ensures within { IsWithin (2 ^ 126) result }
{
    (sum + push).clamp(-MOST_PUSH, MOST_PUSH)
}

/// Counts the frames, to at most 2^63, and sums up their pushes along each axis, from -2^126 to 2^126.
/// Contracts see it as its state (frames, x, y, z).
#[derive(Debug, Drop)]
pub struct Momentum {
    frames: u64,
    x: i128,
    y: i128,
    z: i128,
}

impl Model for Momentum {
    ghost use Rattle.std.specs.Prelude.{List, [], ◌∷◌, ℤ, pos};
    ghost use Rattle.probe.specs.States.{AreSums};

    ghost Value = { List ℤ };

    ghost view = { λ m. pos m.frames ∷ m.x ∷ m.y ∷ m.z ∷ [] };

    ghost invariant = { λ m. AreSums m.x m.y m.z };
}

impl Momentum {
    /// The probe before the first frame.
    pub fn new() -> Momentum
        ensures { result ≡ momentum_opening }
    {
        Momentum {
            frames: 0,
            x: 0,
            y: 0,
            z: 0,
        }
    }
}

#[tactic(auto, unfolding(crate::specs::States::state_after, crate::specs::States::is_finished, crate::specs::States::line_of))]
impl Probe for Momentum {
    ghost kind = { λ m. kind.Momentum };

    ghost state = { λ m. m };

    fn kind(&self) -> Kind {
        Kind::Momentum
    }

    fn see(&mut self, frame: &Frame) -> Result<Verdict, OutOfMemory> {
        self.frames = next_count(self.frames, 1);
        self.x = next_push(self.x, frame.push_x);
        self.y = next_push(self.y, frame.push_y);
        self.z = next_push(self.z, frame.push_z);
        Ok(Verdict::More)
    }

    fn line(&self, out: &mut Vec<u8>) -> Result<(), OutOfMemory> {
        put_named(out, b"momentum frames", self.frames)?;
        put_named(out, b" push", self.x)?;
        put_named(out, b"", self.y)?;
        put_named(out, b"", self.z)
    }
}
