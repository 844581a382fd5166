//! Reading a whole input, and writing all of a text.

ghost use Rattle.std.specs.Prelude.{◌+◌, ◌≤◌};
ghost use Rattle.bh_outside.specs.Calls.{FailsAll, ReadsAll};
ghost use Rattle.bh_outside.specs.Outside.{HasCause, KeepsSure, Writes};

use crate::{Failed, Sink, Source};
use std::alloc::Global;
use thiserror::Error;

/// How many bytes a call of a source is asked for.
const PIECE: usize = 65_536;

/// What reading a whole input answers.
#[derive(Debug, Drop)]
pub enum Input {
    /// All bytes up to the end of the input.
    Whole(Vec<u8>),
    /// The source gave more bytes than the limit.
    TooLong,
}

/// Why an input could not be read.
#[derive(Clone, Copy, Debug, PartialEq, Eq, Error)]
pub enum ReadAllFault {
    /// A call of the source failed.
    #[error("the input could not be read")]
    Failed,
    /// Memory ran out.
    #[error("out of memory")]
    OutOfMemory,
}

/// Reads to the end of the input, or until the source gave more than `limit` bytes, in at most
/// `limit + 1` calls of the source.
///
/// # Errors
///
/// `ReadAllFault::Failed` only where the source's count of faults rose. After either error the
/// source gave at most `limit` bytes, which are lost.
pub fn read_all<S: Source>(
    alloc: Global,
    source: &mut S,
    limit: usize,
) -> Result<Input, ReadAllFault>
    ensures bytes { ReadsAll (S.left source.old) (S.left source.new) limit result }
    ensures failed { FailsAll (S.faults source.old) (S.faults source.new) result }
    ensures later { S.faults source.old ≤ S.faults source.new }
    ensures sure { KeepsSure (S.sure source.old) (S.sure source.new) (S.faults source.old) (S.faults source.new) }
    ensures calls { S.calls source.new ≤ S.calls source.old + limit + 1 }
{
    let mut bytes = Vec::new(alloc);
    let mut piece = [0; PIECE];
    loop {
        let count = match source.read_some(&mut piece) {
            Ok(count) => count,
            Err(_) => return Err(ReadAllFault::Failed),
        };
        if count == 0 {
            return Ok(Input::Whole(bytes));
        }
        if count > limit - bytes.len() {
            return Ok(Input::TooLong);
        }
        if bytes.extend_from_slice(&piece[..count]).is_err() {
            return Err(ReadAllFault::OutOfMemory);
        }
    }
}

/// Writes all of these bytes. The sink is called with no empty piece, and no memory is taken.
///
/// # Errors
///
/// `Failed` only where the sink's count of faults rose. The sink then took a prefix of the bytes.
pub fn write_all<K: Sink>(sink: &mut K, bytes: &[u8]) -> Result<(), Failed>
    ensures text { Writes (K.written sink.old) (K.written sink.new) bytes.now result }
    ensures cause { HasCause (K.faults sink.old) (K.faults sink.new) result }
{
    let mut rest = bytes;
    while !rest.is_empty() {
        match sink.write_some(rest) {
            Ok(count) => rest = &rest[count..],
            Err(failed) => return Err(failed),
        }
    }
    Ok(())
}
