//! The probe of the costs of the zones.

ghost use Rattle.std.specs.Prelude.{◌≡◌};
ghost use Rattle.probe.specs.States.{balance_opening, state_after};
ghost use Rattle.probe.specs.declared.kind.Kind.TheVariants as kind;

use crate::frame::Frame;
use crate::kind::{Kind, Verdict};
use crate::probe::Probe;
use crate::put::{next_count, put_named};
use octant_code::OutOfMemory;
use std::marker::Model;

/// Counts the frames and sums up their costs and the greatest costs of a zone, each to at most 2^63.
/// Contracts see it as its state (frames, cost, greatest).
#[derive(Debug, Drop)]
pub struct Balance {
    frames: u64,
    cost: u64,
    greatest: u64,
}

impl Model for Balance {
    ghost use Rattle.std.specs.Prelude.{List, [], ◌∷◌, ℤ, pos};

    ghost Value = { List ℤ };

    ghost view = { λ b. pos b.frames ∷ pos b.cost ∷ pos b.greatest ∷ [] };
}

impl Balance {
    /// The probe before the first frame.
    pub fn new() -> Balance
        ensures { result ≡ balance_opening }
    {
        Balance {
            frames: 0,
            cost: 0,
            greatest: 0,
        }
    }

    /// Sees a frame.
    #[tactic(auto, unfolding(crate::specs::States::state_after))]
    pub fn go_on(&mut self, frame: &Frame)
        ensures { self.new ≡ state_after kind.Balance frame.now self.old }
    {
        self.frames = next_count(self.frames, 1);
        self.cost = next_count(self.cost, frame.cost);
        self.greatest = next_count(self.greatest, frame.greatest);
    }
}

#[tactic(auto, unfolding(crate::specs::States::is_finished, crate::specs::States::line_of))]
impl Probe for Balance {
    ghost kind = { λ b. kind.Balance };

    ghost state = { λ b. b };

    fn kind(&self) -> Kind {
        Kind::Balance
    }

    fn see(&mut self, frame: &Frame) -> Result<Verdict, OutOfMemory> {
        self.go_on(frame);
        Ok(Verdict::More)
    }

    fn line(&self, out: &mut Vec<u8>) -> Result<(), OutOfMemory> {
        put_named(out, b"balance frames", self.frames)?;
        put_named(out, b" cost", self.cost)?;
        put_named(out, b" greatest", self.greatest)
    }
}
