//! The lines that the program writes beside those of a command.

ghost use Rattle.bh_outside.specs.Outside.{HasCause, Writes};
ghost use Rattle.nbody_cli.specs.Text.{refused, refused_line, usage_line};

use crate::lines::{Item, Line, write_lines};
use bh_outside::{Failed, Sink, write_all};
use scene_file::SceneFault;

/// The line that tells how the program is called.
const USAGE: &[u8] =
    b"usage: nbody tree|passes|run|trial [--builder orig|local|update|partree|space] [--workers N] [--steps N] [--theta T/Q] [--eps2 N] [--g N] [--probe NAME] [--count N] [--seed N] [--shape uniform|corner]\n";

/// Writes the usage line.
pub fn write_usage<K: Sink>(sink: &mut K) -> Result<(), Failed>
    ensures text { Writes (K.written sink.old) (K.written sink.new) usage_line result }
    ensures cause { HasCause (K.faults sink.old) (K.faults sink.new) result }
{
    write_all(sink, USAGE)
}

/// Writes the line of a fault by its word and its numbers.
fn refuse<'x, K: Sink>(sink: &mut K, word: &'x [u8], numbers: &'x [u32]) -> Result<(), Failed>
    ensures text { Writes (K.written sink.old) (K.written sink.new) (refused word.now numbers.now) result }
    ensures cause { HasCause (K.faults sink.old) (K.faults sink.new) result }
{
    let items = [Item::Word(word), Item::Numbers(numbers)];
    write_lines(sink, &[Line::Words(b"refused", &items)])
}

/// Writes the line of a scene's fault; want of memory has none.
pub fn write_refused<K: Sink>(sink: &mut K, fault: SceneFault) -> Result<(), Failed>
    ensures text { Writes (K.written sink.old) (K.written sink.new) (refused_line fault) result }
    ensures cause { HasCause (K.faults sink.old) (K.faults sink.new) result }
{
    match fault {
        SceneFault::TooLong => refuse(sink, b"too-long", &[]),
        SceneFault::BadRecord(r) => refuse(sink, b"bad-record", &[r]),
        SceneFault::BadNumber(r, f) => refuse(sink, b"bad-number", &[r, f]),
        SceneFault::OutOfRange(r, f) => refuse(sink, b"out-of-range", &[r, f]),
        SceneFault::TooMany(r) => refuse(sink, b"too-many", &[r]),
        SceneFault::MassTotal(r) => refuse(sink, b"mass-total", &[r]),
        SceneFault::Coincident(r, a, b) => refuse(sink, b"coincident", &[r, a, b]),
        SceneFault::BodyAfterMove(r) => refuse(sink, b"body-after-move", &[r]),
        SceneFault::UnknownBody(r) => refuse(sink, b"unknown-body", &[r]),
        SceneFault::MovedTwice(r, n) => refuse(sink, b"moved-twice", &[r, n]),
        SceneFault::PassCoincident(r, a, b) => refuse(sink, b"pass-coincident", &[r, a, b]),
        SceneFault::OutOfMemory => Ok(()),
    }
}
