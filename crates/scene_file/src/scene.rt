//! The reading of a scene's bytes.

ghost use Rattle.std.specs.Prelude.{◌≤◌, length};
ghost use Rattle.scene_file.specs.Scene.{Reads, nothing, records_of, scene_after, scene_of};

use crate::bodies::Bodies;
use crate::fault::SceneFault;
use crate::passes::Passes;
use crate::reading::Reading;
use csv::{ByteRecord, ErrorKind, ReaderBuilder};
use octant_code::MOST_BODIES;
use std::alloc::Global;
use std::marker::Model;

/// A scene that was accepted: bodies, and passes each of which can be one over the bodies after
/// those before it. It has at most 1,024 passes, and these at most 262,144 moves in all.
#[derive(Debug, Drop)]
pub struct Scene {
    /// The bodies, in the order of their records.
    pub bodies: Bodies,
    /// The passes, in the order of their records.
    pub passes: Passes,
}

impl Model for Scene {
    ghost use Rattle.scene_file.specs.Moves.{IsScene, SceneParts};

    ghost Value = { SceneParts };

    ghost view = { λ s. record { bodies = s.bodies; passes = s.passes } };

    ghost invariant = { λ s. IsScene (record { bodies = s.bodies; passes = s.passes }) };
}

/// How many bytes a scene may have.
pub const MOST_BYTES: usize = 16_777_216;

// The bytes of a body's record whose numbers have one digit each, with its line end, which the last
// record may lack. Room is taken for as many bodies as the bytes can have at most, so that nothing
// is moved while they are read.
const LEAST_RECORD: usize = 13;

// The scene of the records of these bytes, or the first fault. One row serves all records.
fn read_records(alloc: Global, bytes: &[u8]) -> Result<Scene, SceneFault>
    requires { length bytes.now ≤ MOST_BYTES }
    ensures { Reads result (scene_after (records_of bytes.now) 1 nothing) }
{
    let mut reader = ReaderBuilder::new()
        .has_headers(false)
        .flexible(true)
        .from_reader(alloc, bytes);
    let room = (MOST_BODIES as usize).min((bytes.len() + 1) / LEAST_RECORD);
    let mut reading = Reading::new(alloc, room)?;
    let mut row = ByteRecord::new(alloc);
    for number in 1..u32::MAX {
        match reader.read_byte_record(&mut row) {
            Ok(true) => match reading.add(alloc, number, &row) {
                Ok(()) => {}
                // A body at the point of an earlier one comes before this fault.
                Err(fault) => match reading.test_points(alloc) {
                    Ok(()) => return Err(fault),
                    Err(first) => return Err(first),
                },
            },
            Ok(false) => match reading.test_points(alloc) {
                Ok(()) => return reading.finish(alloc, number),
                Err(fault) => return Err(fault),
            },
            Err(error) => match error.into_kind() {
                // A slice can't fail, but no clause of `Read` says so: it would be want of memory.
                ErrorKind::Io(_) | ErrorKind::OutOfMemory => return Err(SceneFault::OutOfMemory),
                _ => unreachable!(),
            },
        }
    }
    unreachable!()
}

/// Reads the scene of the bytes, or tells its first fault. Records, also those of quoted fields and
/// of every accepted line ending, are those that `csv` gives without a header row and of any lengths.
pub fn read_scene(alloc: Global, bytes: &[u8]) -> Result<Scene, SceneFault>
    ensures { Reads result (scene_of bytes.now) }
{
    if bytes.len() > MOST_BYTES {
        return Err(SceneFault::TooLong);
    }
    read_records(alloc, bytes)
}
