//! A source and a sink, each with a count of its faults.
//!
//! Code that is generic over them can't raise the count itself, so an answer that blames a source or
//! a sink has the count as its witness.

ghost use Rattle.std.specs.Prelude.{◌+◌, ◌≤◌, Bool, List, ℕ, Option};
ghost use Rattle.std.specs.Io.{ReadsAtMost};
ghost use Rattle.std.specs.Io.KnownBytes.{ReadConsumes};
ghost use Rattle.bh_outside.specs.Outside.{HasCause, KeepsSure, WriteTakes};

/// A read or a write that failed.
#[derive(Clone, Copy, Debug, PartialEq, Eq)]
pub struct Failed;

/// A stream of bytes that are read.
pub trait Source {
    // The bytes still to come, where the source tells them.
    ghost left: { Self → Option (List ℕ) };
    // How often it has failed. The count never falls, and it stays at the end of a u64.
    ghost faults: { Self → ℕ };
    // Whether it never fails.
    ghost sure: { Self → Bool };
    // A count of its calls, which rises by at most one at each.
    ghost calls: { Self → ℕ };

    /// Reads bytes into the front of a piece, and answers how many. `Ok(0)` for a piece that isn't
    /// empty is the end of the input.
    ///
    /// # Errors
    ///
    /// `Failed` only where the count of faults rose.
    fn read_some(&mut self, into: &mut [u8]) -> Result<usize, Failed>
        ensures bound { ReadsAtMost result into.new }
        ensures bytes { ReadConsumes (left self.old) (left self.new) result into.new }
        ensures cause { HasCause (faults self.old) (faults self.new) result }
        ensures sure { KeepsSure (sure self.old) (sure self.new) (faults self.old) (faults self.new) }
        ensures calls { calls self.new ≤ calls self.old + 1 };
}

/// A stream of bytes that are written.
pub trait Sink {
    // The bytes that it took, where it tells them.
    ghost written: { Self → Option (List ℕ) };
    // How often it has failed. The count never falls, and it stays at the end of a u64.
    ghost faults: { Self → ℕ };

    /// Writes bytes from the front of a piece, and answers how many: at least one where the piece
    /// isn't empty.
    ///
    /// # Errors
    ///
    /// `Failed` only where the count of faults rose. Nothing was written then.
    fn write_some(&mut self, from: &[u8]) -> Result<usize, Failed>
        ensures bytes { WriteTakes (written self.old) (written self.new) result from.now }
        ensures cause { HasCause (faults self.old) (faults self.new) result };
}
