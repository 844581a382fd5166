//! Why a scene is refused.

ghost use Rattle.std.specs.Prelude.{◌≡◌};
ghost use Rattle.scene_file.specs.declared.fault.SceneFault.TheVariants as fault;

use octant_code::OutOfMemory;
use thiserror::Error;

/// The first fault of a scene's bytes: that of the first record that has one, and within a record the
/// first in the order in which they stand here. Records and their fields are numbered from 1, bodies
/// from 0.
#[derive(Clone, Copy, Debug, PartialEq, Eq, Error)]
pub enum SceneFault {
    /// There are more than 16,777,216 bytes. It comes before all else.
    #[error("the scene is too long")]
    TooLong,
    /// The record of this number isn't one of a body, a move or a pass: its first field isn't `body`,
    /// `move` or `pass`, or it has not five fields, five, or one.
    #[error("record {0} is bad")]
    BadRecord(u32),
    /// In the record of the first number the field of the second isn't written in digits. It is
    /// the first such field after the record's first.
    #[error("record {0}: field {1} is no number")]
    BadNumber(u32, u32),
    /// In the record of the first number, whose fields are numbers, the field of the second is out
    /// of its range. It is the first such field.
    #[error("record {0}: field {1} is out of range")]
    OutOfRange(u32, u32),
    /// The body of the record of this number has 65,536 bodies before it, or its move 262,144 moves,
    /// or its pass 1,024 passes.
    #[error("record {0} is one too many")]
    TooMany(u32),
    /// The masses of the bodies up to and with that of the record of this number sum to 2^40 or more.
    #[error("the total mass is too great with record {0}")]
    MassTotal(u32),
    /// In the record of the first number a body is given the point of an earlier one: the second
    /// number is that of the earlier body, and the third that of this one.
    #[error("record {0}: bodies {1} and {2} are at one point")]
    Coincident(u32, u32, u32),
    /// The record of this number is one of a body, behind one of a move or of a pass.
    #[error("record {0}: a body behind a move or a pass")]
    BodyAfterMove(u32),
    /// The move of the record of this number names a body that there isn't.
    #[error("record {0}: there is no such body")]
    UnknownBody(u32),
    /// In the record of the first number a body is moved, that of the second number, which an earlier
    /// move of the same pass names.
    #[error("record {0}: body {1} is moved twice")]
    MovedTwice(u32, u32),
    /// After the pass that the record of the first number ends, or the end of the file as one record
    /// more, two bodies are at one point: the third number is the least body's that is at the point of
    /// one with a lower number, and the second the least such.
    #[error("record {0}: bodies {1} and {2} are at one point after the pass")]
    PassCoincident(u32, u32, u32),
    /// Memory ran out. It is the one answer that the bytes don't cause.
    #[error("out of memory")]
    OutOfMemory,
}

impl From<OutOfMemory> for SceneFault {
    ghost from_gives = { λ _ told. told ≡ fault.OutOfMemory };

    fn from(_none: OutOfMemory) -> SceneFault {
        SceneFault::OutOfMemory
    }
}
