//! Runs that end by themselves: what each writes, and its status.

use crate::serving::{gives, run_with, sure_ends, words_of};
use bh_outside::{MemorySource, SureSink};
use build_gate::OpenGate;
use free_tree::FreeYard;
use locked_tree::LockedYard;
use nbody_cli::{Status, serve};
use std::process::Abort;
use std::sync::Wait;
use std::test::Fail;
use std::thread::Threads;

#[test]
fn trees_of_scenes(rt: HostRuntime) -> Result<(), Fail> {
    let rows: [(&[u8], &[u8]); 7] = [
        // no body
        (b"", b"tree .\n"),
        // one body
        (b"body,9,5,6,7\n", b"tree b0\n"),
        // two bodies in two octants
        (
            b"body,1,0,0,0\nbody,1,1048576,0,0\n",
            b"tree (b0...b1...)\n",
        ),
        // the last record needs no newline
        (b"body,1,0,0,0\nbody,1,1048576,0,0", b"tree (b0...b1...)\n"),
        // two bodies in opposite corners
        (
            b"body,1,0,0,0\nbody,1,2097151,2097151,2097151\n",
            b"tree (b0......b1)\n",
        ),
        // two bodies in one deep cell, one step apart in z
        (
            b"body,1,0,0,0\nbody,1,0,0,1\n",
            b"tree (((((((((((((((((((((b0b1......).......).......).......).......).......).......).......).......).......).......).......).......).......).......).......).......).......).......).......).......)\n",
        ),
        // a quoted field, a carriage return and an empty line
        (
            b"\"body\",\"1\",0,0,0\r\n\nbody,1,1048576,0,0\n",
            b"tree (b0...b1...)\n",
        ),
    ];
    for (scene, text) in rows {
        gives(&rt, "tree", scene, Status::Done, text)?;
    }
    Ok(())
}

#[test]
fn scenes_that_are_refused(rt: HostRuntime) -> Result<(), Fail> {
    let rows: [(&[u8], &[u8]); 12] = [
        (b"star,1,0,0,0\n", b"refused bad-record 1\n"),
        (b"body,1,0,0,0,\n", b"refused bad-record 1\n"),
        // cut in the middle of a record
        (b"body,1,0,0,0\nbody,1,5", b"refused bad-record 2\n"),
        (b"body,1,0,x,0\n", b"refused bad-number 1 4\n"),
        (b"body,+1,0,0,0\n", b"refused bad-number 1 2\n"),
        (b"body,,0,0,0\n", b"refused bad-number 1 2\n"),
        (b"body, 1,0,0,0\n", b"refused bad-number 1 2\n"),
        // digits are looked for in all fields before any range
        (b"body,0,x,0,0\n", b"refused bad-number 1 3\n"),
        (b"body,0,0,0,0\n", b"refused out-of-range 1 2\n"),
        (
            b"body,1,0,0,0\nbody,1,0,2097152,0\n",
            b"refused out-of-range 2 4\n",
        ),
        (
            b"body,1,99999999999999999999999999999999999999999999999999,0,0\n",
            b"refused out-of-range 1 3\n",
        ),
        (
            b"body,1,0,0,0\nbody,1,1,0,0\nbody,1,0,0,0\n",
            b"refused coincident 3 0 2\n",
        ),
    ];
    for (scene, line) in rows {
        gives(&rt, "tree", scene, Status::Scene, line)?;
    }
    Ok(())
}

/// The records of so many bodies of one mass, side by side along an axis.
fn row_of_bodies<R: Abort + AllocGlobal>(rt: &R, count: u32, mass: u32) -> Result<Vec<u8>, Fail> {
    let mut scene: Vec<u8> = Vec::new(rt.alloc());
    for x in 0..count {
        let record = format!(in rt.alloc(); "body,{mass},{x},0,0\n")?;
        scene.extend_from_slice(record.as_bytes())?;
    }
    Ok(scene)
}

#[test]
fn scenes_past_a_limit_are_refused(rt: HostRuntime) -> Result<(), Fail> {
    let heavy = row_of_bodies(&rt, 257, 4_294_967_295)?;
    gives(
        &rt,
        "tree",
        &heavy,
        Status::Scene,
        b"refused mass-total 257\n",
    )?;
    let many = row_of_bodies(&rt, 65_537, 1)?;
    gives(
        &rt,
        "tree",
        &many,
        Status::Scene,
        b"refused too-many 65537\n",
    )?;
    let long = vec![in rt.alloc(); b','; 16_777_217]?;
    gives(&rt, "tree", &long, Status::Scene, b"refused too-long\n")
}

#[test]
fn words_without_options(rt: HostRuntime) -> Result<(), Fail> {
    let rows = [
        "",
        "walk",
        "--help",
        "tree tree",
        "tree --help",
        "-- tree",
        "run --workers",
        "run --workers 0",
        "run --workers 65",
        "run --workers=",
        "run --probe nothing",
        "tree --theta 1",
        "tree --theta 1/0",
        "tree --g -1",
        "tree --workers 2 --workers=2",
        "trial --steps 0",
    ];
    let usage =
        b"usage: nbody tree|passes|run|trial [--builder orig|local|update|partree|space] [--workers N] [--steps N] [--theta T/Q] [--eps2 N] [--g N] [--probe NAME] [--count N] [--seed N] [--shape uniform|corner]\n";
    for line in rows {
        gives(&rt, line, b"body,1,0,0,0\n", Status::Usage, usage)?;
    }
    Ok(())
}

#[test]
fn more_than_forty_words_are_read(rt: HostRuntime) -> Result<(), Fail> {
    let mut line = String::from_str(rt.alloc(), "tree")?;
    for _ in 0..60 {
        line.push_str(" tree")?;
    }
    let (status, _) = run_with(&rt, &line, b"", &sure_ends(1000))?;
    assert_eq!(rt; status, Status::Usage);
    Ok(())
}

/// A run of the command `tree` over a scene into a sink that cannot fail ends with `Done`.
fn is_done<R: Abort + AllocGlobal + Threads + Wait + Sync>(
    rt: &R,
    scene: &[u8],
    sink: &mut SureSink,
) -> Result<(), Fail> {
    let alloc = rt.alloc();
    let words = words_of(alloc, "tree")?;
    let mut source = MemorySource::new(scene.to_vec(alloc)?, 1, Vec::new(alloc));
    let mut locked = LockedYard::new();
    let mut free = FreeYard::new();
    let status = serve(
        rt,
        &words,
        &mut source,
        sink,
        &mut locked,
        &mut free,
        &OpenGate,
        Vec::new(alloc),
    );
    assert_eq!(rt; status, Status::Done);
    Ok(())
}

#[test]
fn a_sink_that_cannot_fail_ends_done(rt: HostRuntime) -> Result<(), Fail> {
    let mut sink = SureSink::new(rt.alloc(), 64)?;
    is_done(&rt, b"", &mut sink)?;
    is_done(&rt, b"body,1,0,0,0\nbody,1,1048576,0,0\n", &mut sink)
}
