//! Probes as values behind one trait.

ghost use Rattle.std.specs.Prelude.{◌≡◌, ◌++◌, IfOk, List, OnOk, ℤ};
ghost use Rattle.probe.specs.States.{line_of, state_after, verdict_of};
ghost use Rattle.probe.specs.declared.kind.Kind.{Kind};

use crate::frame::Frame;
use crate::kind::{Kind, Verdict};
use octant_code::OutOfMemory;

/// What sees the frames of a run, one after another, until it has seen enough or the run ends, and
/// then tells one line of them.
pub trait Probe: Drop {
    // What it watches.
    ghost kind: { Self → Kind };
    // What it keeps of the frames that it saw: whole numbers.
    ghost state: { Self → List ℤ };

    /// What it watches.
    fn kind(&self) -> Kind
        ensures { result ≡ kind self.now };

    /// Sees a frame: the state goes on, and `Finished` is answered exactly where it has seen enough.
    ///
    /// # Errors
    ///
    /// Only where memory ran out. Nothing is said of the state then.
    fn see(&mut self, frame: &Frame) -> Result<Verdict, OutOfMemory>
        ensures kind { kind self.new ≡ kind self.old }
        ensures state { OnOk result (state self.new ≡ state_after (kind self.old) frame.now (state self.old)) }
        ensures verdict { IfOk result (λ v. v ≡ verdict_of (kind self.new) (state self.new)) };

    /// Puts the line of its state, without a newline, behind the bytes.
    ///
    /// # Errors
    ///
    /// Only where memory ran out. Nothing is said of the bytes then.
    fn line(&self, out: &mut Vec<u8>) -> Result<(), OutOfMemory>
        ensures { OnOk result (out.new.items ≡ out.old.items ++ line_of (kind self.now) (state self.now)) };
}
