//! Runs with several workers: what is the same with each builder and any number of them, and that they
//! are at work at the same time.

use crate::serving::{run_at, run_with, sure_ends};
use build_gate::{MeetGate, OpenGate};
use nbody_cli::Status;
use scene_file::{Shape, made_scene, scene_text};
use std::alloc::Global;
use std::process::Abort;
use std::sync::Wait;
use std::test::Fail;
use std::thread::Threads;

/// The lines of frames that are the same with each builder and any number of workers: those of their numbers, of their trees,
/// of how large these are, and of their bodies.
fn common_lines(alloc: Global, text: &[u8]) -> Result<Vec<u8>, Fail> {
    let mut lines: Vec<u8> = Vec::new(alloc);
    for line in text.split(|byte| *byte == b'\n') {
        if line.starts_with(b"frame ")
            || line.starts_with(b"tree ")
            || line.starts_with(b"cells ")
            || line.starts_with(b"acc ")
        {
            lines.extend_from_slice(line)?;
            lines.push(b'\n')?;
        }
    }
    Ok(lines)
}

/// Those lines of the run of these words over a scene, with so many workers of a builder.
fn lines_with<R: Abort + AllocGlobal + Threads + Wait + Sync>(
    rt: &R,
    line: &str,
    scene: &[u8],
    builder: &str,
    workers: u32,
) -> Result<Vec<u8>, Fail> {
    let words = format!(in rt.alloc(); "{line} --builder {builder} --workers {workers}")?;
    let (status, text) = run_with(rt, &words, scene, &sure_ends(1 << 20))?;
    assert_eq!(rt; status, Status::Done, "{words}");
    common_lines(rt.alloc(), &text)
}

/// The run of these words over a scene tells the same of its tree and of its bodies with each builder,
/// by one worker, three, eight and sixty-four.
fn is_common<R: Abort + AllocGlobal + Threads + Wait + Sync>(
    rt: &R,
    line: &str,
    scene: &[u8],
) -> Result<(), Fail> {
    let alone = lines_with(rt, line, scene, "orig", 1)?;
    assert!(rt; alone.starts_with(b"frame 0\ntree "));
    for builder in ["orig", "local", "update", "partree", "space"] {
        for workers in [1, 3, 8, 64] {
            let together = lines_with(rt, line, scene, builder, workers)?;
            assert!(rt;
                together.as_slice() == alone.as_slice(),
                "{line}, {builder}, {workers} workers"
            );
        }
    }
    Ok(())
}

/// The scene of 64 made bodies.
fn made_bodies(alloc: Global) -> Result<Vec<u8>, Fail> {
    let scene = made_scene(alloc, 64, 7, Shape::Uniform)?;
    Ok(scene_text(alloc, &scene)?)
}

#[test]
fn trees_and_pulls_are_the_same_with_each_builder_and_any_workers(
    rt: HostRuntime,
) -> Result<(), Fail> {
    let three = b"body,1,1,0,0\nbody,1,4,0,0\nbody,1,6,0,0\n";
    let rows: [(&str, &[u8]); 7] = [
        ("run", b""),
        ("run", b"body,9,5,6,7\n"),
        ("run", b"body,8,0,0,0\nbody,1,4,0,0\n"),
        ("run", three),
        ("run --theta 2/1", three),
        ("run", b"body,1,0,0,0\nbody,1,1,0,0\nbody,1,2,0,0\n"),
        (
            "run",
            b"body,1,0,0,0\nbody,1,0,0,1048576\nbody,1,0,1048576,0\nbody,1,1048576,0,0\n",
        ),
    ];
    for (line, scene) in rows {
        is_common(&rt, line, scene)?;
    }
    is_common(&rt, "run", &made_bodies(rt.alloc())?)
}

#[test]
fn frames_of_steps_and_of_passes_are_the_same_with_each_builder_and_any_workers(
    rt: HostRuntime,
) -> Result<(), Fail> {
    is_common(&rt, "run --steps 3", &made_bodies(rt.alloc())?)?;
    let mut moved = made_bodies(rt.alloc())?;
    moved.extend_from_slice(
        b"move,0,5,6,7\nmove,63,1,2,3\npass\npass\nmove,5,2097151,0,0\nmove,0,0,0,0\npass\nmove,9,5,6,7\n",
    )?;
    is_common(&rt, "passes", &moved)
}

/// Two workers of a builder meet over 64 bodies: they tell the tree that one worker of ORIG tells, and this
/// behind it, and count so many bodies in the yard with locks and in the other.
fn meet<R: Abort + AllocGlobal + Threads + Wait + Sync>(
    rt: &R,
    builder: &str,
    locked: u64,
    free: u64,
    told: &[u8],
) -> Result<(), Fail> {
    let scene = made_bodies(rt.alloc())?;
    let (_, mut text) = run_with(rt, "tree", &scene, &sure_ends(1 << 16))?;
    assert!(rt; text.starts_with(b"tree ("));
    text.extend_from_slice(told)?;
    let gate = MeetGate::new(0, 1);
    let line = format!(in rt.alloc(); "tree --builder {builder} --workers 2")?;
    let ran = run_at(rt, &line, &scene, &sure_ends(1 << 16), &gate)?;
    assert!(rt; !gate.missed(), "{builder}");
    assert_eq!(rt; ran.status, Status::Done, "{builder}");
    assert!(rt; ran.text.as_slice() == text.as_slice(), "{builder}");
    assert_eq!(rt; ran.locked.published, locked, "{builder}");
    assert_eq!(rt; ran.free.published, free, "{builder}");
    Ok(())
}

#[test]
fn two_workers_meet(rt: HostRuntime) -> Result<(), Fail> {
    meet(&rt, "orig", 64, 0, b"")?;
    for builder in ["local", "update", "partree"] {
        meet(&rt, builder, 0, 64, b"")?;
    }
    meet(&rt, "space", 0, 0, b"pieces 29\n")
}

/// Sixty-four workers of each builder make the tree of a scene, whose line this is, and count its
/// bodies.
fn many_make<R: Abort + AllocGlobal + Threads + Wait + Sync>(
    rt: &R,
    scene: &[u8],
    text: &[u8],
    bodies: u64,
) -> Result<(), Fail> {
    let orig = run_at(rt, "tree --workers 64", scene, &sure_ends(100), &OpenGate)?;
    assert_eq!(rt; orig.status, Status::Done);
    assert!(rt; orig.text.as_slice() == text);
    assert_eq!(rt; orig.locked.changes, bodies);
    let line = "tree --builder local --workers 64";
    let local = run_at(rt, line, scene, &sure_ends(100), &OpenGate)?;
    assert_eq!(rt; local.status, Status::Done);
    assert!(rt; local.text.as_slice() == text);
    assert_eq!(rt; local.free.changes, bodies);
    Ok(())
}

#[test]
fn more_workers_than_bodies(rt: HostRuntime) -> Result<(), Fail> {
    many_make(&rt, b"", b"tree .\n", 0)?;
    let three = b"body,1,0,0,0\nbody,1,0,0,1048576\nbody,1,0,1048576,0\n";
    many_make(&rt, three, b"tree (b0b1b2.....)\n", 3)
}
