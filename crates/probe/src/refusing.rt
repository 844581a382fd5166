//! A probe that refuses, for tests.

ghost use Rattle.std.specs.Prelude.{◌≡◌, ◌-◌, ◌↔◌, ◌++◌, IfOk, IsErr, OnOk, true};
ghost use Rattle.probe.specs.States.{balance_opening, line_of, state_after, verdict_of};
ghost use Rattle.probe.specs.declared.kind.Kind.TheVariants as kind;

use crate::balance::Balance;
use crate::frame::Frame;
use crate::kind::{Kind, Verdict};
use crate::probe::Probe;
use octant_code::OutOfMemory;
use std::marker::Model;

/// A probe of the kind Balance that finds no memory: for frames from some one on, and for its line
/// where that is asked for. Contracts see it as a `Refusing`.
#[derive(Debug, Drop)]
pub struct RefusingBalance {
    inner: Balance,
    good: u32,
    refuse_line: bool,
}

impl Model for RefusingBalance {
    ghost use Rattle.probe.specs.States.{Refusing};

    ghost Value = { Refusing };

    ghost view = { λ r. record { state = r.inner; good = r.good; refuses_line = r.refuse_line } };
}

impl RefusingBalance {
    /// A probe that sees `good` frames as Balance does and refuses from then on, and that refuses its
    /// line where `refuse_line` is true. It takes no memory.
    pub fn new(good: u32, refuse_line: bool) -> RefusingBalance
        ensures state { result.state ≡ balance_opening }
        ensures good { result.good ≡ good }
        ensures line { result.refuses_line ≡ refuse_line }
    {
        RefusingBalance {
            inner: Balance::new(),
            good,
            refuse_line,
        }
    }
}

#[tactic(auto, unfolding(crate::specs::States::is_finished))]
impl Probe for RefusingBalance {
    ghost kind = { λ r. kind.Balance };

    ghost state = { λ r. r.state };

    fn kind(&self) -> Kind {
        Kind::Balance
    }

    fn see(&mut self, frame: &Frame) -> Result<Verdict, OutOfMemory>
        ensures state { OnOk result (self.new.state ≡ state_after kind.Balance frame.now self.old.state) }
        ensures verdict { IfOk result (λ v. v ≡ verdict_of kind.Balance self.new.state) }
        ensures refused { IsErr result ↔ (self.old.good ≡ 0) }
        ensures good { self.new.good ≡ self.old.good - 1 }
        ensures line { self.new.refuses_line ≡ self.old.refuses_line }
    {
        if self.good == 0 {
            return Err(OutOfMemory);
        }
        self.good -= 1;
        self.inner.go_on(frame);
        Ok(Verdict::More)
    }

    fn line(&self, out: &mut Vec<u8>) -> Result<(), OutOfMemory>
        ensures text { OnOk result (out.new.items ≡ out.old.items ++ line_of kind.Balance self.now.state) }
        ensures refused { self.now.refuses_line ≡ true → IsErr result }
    {
        if self.refuse_line {
            return Err(OutOfMemory);
        }
        self.inner.line(out)
    }
}
