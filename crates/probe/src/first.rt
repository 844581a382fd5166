//! The probe of the first frames.

ghost use Rattle.std.specs.Prelude.{◌≡◌};
ghost use Rattle.probe.specs.States.{first_opening};
ghost use Rattle.probe.specs.declared.kind.Kind.TheVariants as kind;

use crate::frame::Frame;
use crate::kind::{Kind, Verdict};
use crate::probe::Probe;
use crate::put::put_named;
use octant_code::OutOfMemory;
use std::marker::Model;

/// Sees so many frames, at least one, and keeps the cells of the last one that it saw. Contracts see
/// it as its state (left, cells), with how many frames it has still to see.
#[derive(Debug, Drop)]
pub struct FirstFrames {
    left: u32,
    cells: u32,
}

impl Model for FirstFrames {
    ghost use Rattle.std.specs.Prelude.{List, [], ◌∷◌, ℤ, pos};

    ghost Value = { List ℤ };

    ghost view = { λ f. pos f.left ∷ pos f.cells ∷ [] };
}

impl FirstFrames {
    /// The probe before the first frame, which finishes at frame `n - 1`, and at frame 0 where `n` is
    /// 0.
    pub fn new(n: u32) -> FirstFrames
        ensures { result ≡ first_opening n }
    {
        FirstFrames { left: n, cells: 0 }
    }
}

#[tactic(auto, unfolding(crate::specs::States::state_after, crate::specs::States::is_finished, crate::specs::States::line_of))]
impl Probe for FirstFrames {
    ghost kind = { λ f. kind.First };

    ghost state = { λ f. f };

    fn kind(&self) -> Kind {
        Kind::First
    }

    fn see(&mut self, frame: &Frame) -> Result<Verdict, OutOfMemory> {
        self.left = self.left.saturating_sub(1);
        self.cells = frame.cells;
        if self.left == 0 {
            Ok(Verdict::Finished)
        } else {
            Ok(Verdict::More)
        }
    }

    fn line(&self, out: &mut Vec<u8>) -> Result<(), OutOfMemory> {
        put_named(out, b"first left", self.left)?;
        put_named(out, b" cells", self.cells)
    }
}
