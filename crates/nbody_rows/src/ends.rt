//! Ends that fail: the two bodies in two octants, from a source that gives one byte a call and into a
//! sink that takes one.

use crate::serving::{Ends, run_with};
use nbody_cli::Status;
use std::process::Abort;
use std::sync::Wait;
use std::test::Fail;
use std::thread::Threads;

/// Two bodies in two octants, by 32 bytes.
const SCENE: &[u8] = b"body,1,0,0,0\nbody,1,1048576,0,0\n";

/// The 18 bytes of the tree of the two bodies.
const TEXT: &[u8] = b"tree (b0...b1...)\n";

/// How the run ends where this read and this write fail, 0 for none, with this room, and what is
/// written then.
fn ends_so<R: Abort + AllocGlobal + Threads + Wait + Sync>(
    rt: &R,
    read: u32,
    write: u32,
    room: usize,
    wanted: Status,
    bytes: usize,
) -> Result<(), Fail> {
    let ends = Ends {
        give: 1,
        failing_reads: &[read],
        take: 1,
        failing_writes: &[write],
        room,
    };
    let (status, written) = run_with(rt, "tree", SCENE, &ends)?;
    assert_eq!(rt; status, wanted, "read {read}, write {write}, room {room}");
    assert!(rt; bytes <= TEXT.len());
    assert!(rt;
        written.as_slice() == &TEXT[..bytes],
        "read {read}, write {write}, room {room}"
    );
    Ok(())
}

#[test]
fn a_read_that_fails_writes_nothing(rt: HostRuntime) -> Result<(), Fail> {
    for read in 1..34 {
        ends_so(&rt, read, 0, 1000, Status::Read, 0)?;
    }
    // The input is read to its end by then.
    ends_so(&rt, 34, 0, 1000, Status::Done, 18)
}

#[test]
fn a_sink_that_is_full_has_what_it_had_room_for(rt: HostRuntime) -> Result<(), Fail> {
    for room in 0..18 {
        ends_so(&rt, 0, 0, room, Status::Write, room)?;
    }
    ends_so(&rt, 0, 0, 18, Status::Done, 18)
}

#[test]
fn a_write_that_fails_leaves_what_was_written_before(rt: HostRuntime) -> Result<(), Fail> {
    for write in 1..19u32 {
        ends_so(&rt, 0, write, 1000, Status::Write, write as usize - 1)?;
    }
    ends_so(&rt, 0, 19, 1000, Status::Done, 18)
}
