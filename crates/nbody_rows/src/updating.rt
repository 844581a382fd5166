//! The builder UPDATE: what frames tell of its updates, and what the yard counts.

use crate::serving::{gives, run_at, sure_ends};
use build_gate::OpenGate;
use nbody_cli::Status;
use std::alloc::Global;
use std::process::Abort;
use std::sync::Wait;
use std::test::Fail;
use std::thread::Threads;

/// Two bodies in one deep cell, of which one leaves it.
const LEAVES: &[u8] = b"body,1,0,0,0\nbody,1,0,0,1\nmove,1,1048576,0,0\npass\n";

/// The same bodies, of which one is moved to where it is.
const STAYS: &[u8] = b"body,1,0,0,0\nbody,1,0,0,1\nmove,0,0,0,0\npass\n";

/// Two bodies that change places.
const SWAP: &[u8] = b"body,1,0,0,0\nbody,1,1048576,0,0\nmove,0,1048576,0,0\nmove,1,0,0,0\npass\n";

/// Two bodies, of which one moves within its leaf's cube.
const WITHIN: &[u8] = b"body,1,0,0,0\nbody,1,1048576,0,0\nmove,0,5,6,7\npass\n";

/// Three bodies, of which all move, and then none.
const ALL: &[u8] =
    b"body,1,0,0,0\nbody,1,0,0,1048576\nbody,1,1048576,0,0\nmove,0,0,1048576,0\nmove,1,0,1048576,1048576\nmove,2,1048576,1048576,0\npass\npass\n";

/// The run of these words over a scene ends with Done and writes just this text, with 1, 3 and 8 workers
/// of UPDATE, and the yard without locks counts so many bodies, each put in by a publication of its own.
fn updates<R: Abort + AllocGlobal + Threads + Wait + Sync>(
    rt: &R,
    command: &str,
    scene: &[u8],
    text: &[u8],
    bodies: u64,
) -> Result<(), Fail> {
    for workers in [1, 3, 8] {
        let line = format!(in rt.alloc(); "{command} --builder update --workers {workers}")?;
        let ran = run_at(rt, &line, scene, &sure_ends(1 << 17), &OpenGate)?;
        assert_eq!(rt; ran.status, Status::Done, "{line}");
        assert!(rt; ran.text.as_slice() == text, "{line}");
        assert_eq!(rt; ran.free.published, bodies, "{line}");
        assert_eq!(rt; ran.free.changes, bodies, "{line}");
        assert_eq!(rt; ran.locked.published, 0, "{line}");
        assert_eq!(rt; ran.locked.changes, 0, "{line}");
    }
    Ok(())
}

#[test]
fn a_body_leaves_its_cell(rt: HostRuntime) -> Result<(), Fail> {
    let text =
        b"frame 0\ntree (((((((((((((((((((((b0b1......).......).......).......).......).......).......).......).......).......).......).......).......).......).......).......).......).......).......).......).......)\ncells 21 depth 21\nframe 1\ntree (b0...b1...)\ncells 1 depth 1\nupdate left 1 freed 21 taken 1\n";
    updates(&rt, "passes", LEAVES, text, 3)
}

#[test]
fn no_body_leaves_its_cell(rt: HostRuntime) -> Result<(), Fail> {
    let text =
        b"frame 0\ntree (((((((((((((((((((((b0b1......).......).......).......).......).......).......).......).......).......).......).......).......).......).......).......).......).......).......).......).......)\ncells 21 depth 21\nframe 1\ntree (((((((((((((((((((((b0b1......).......).......).......).......).......).......).......).......).......).......).......).......).......).......).......).......).......).......).......).......)\ncells 21 depth 21\nupdate left 0 freed 0 taken 0\n";
    updates(&rt, "passes", STAYS, text, 2)?;
    let text =
        b"frame 0\ntree (b0...b1...)\ncells 1 depth 1\nframe 1\ntree (b0...b1...)\ncells 1 depth 1\nupdate left 0 freed 0 taken 0\n";
    updates(&rt, "passes", WITHIN, text, 2)
}

#[test]
fn two_bodies_change_places(rt: HostRuntime) -> Result<(), Fail> {
    let text =
        b"frame 0\ntree (b0...b1...)\ncells 1 depth 1\nframe 1\ntree (b1...b0...)\ncells 1 depth 1\nupdate left 2 freed 1 taken 1\n";
    updates(&rt, "passes", SWAP, text, 4)
}

#[test]
fn all_bodies_leave_their_cells(rt: HostRuntime) -> Result<(), Fail> {
    let text =
        b"frame 0\ntree (b0b1..b2...)\ncells 1 depth 1\nframe 1\ntree (..b0b1..b2.)\ncells 1 depth 1\nupdate left 3 freed 1 taken 1\nframe 2\ntree (..b0b1..b2.)\ncells 1 depth 1\nupdate left 0 freed 0 taken 0\n";
    updates(&rt, "passes", ALL, text, 6)
}

#[test]
fn two_heavy_bodies_draw_together(rt: HostRuntime) -> Result<(), Fail> {
    let text =
        b"frame 0\ntree ((((((((((((((((((b0...b1...).......).......).......).......).......).......).......).......).......).......).......).......).......).......).......).......).......)\ncells 18 depth 18\ncost 2 greatest 2\nzone 0 0 1\nacc 0 at 0 0 0 pull 4294967296 0 0 met 1\nacc 1 at 8 0 0 pull -4294967296 0 0 met 1\nframe 1\ntree (((((((((((((((((((b0...b1...).......).......).......).......).......).......).......).......).......).......).......).......).......).......).......).......).......).......)\ncells 19 depth 19\nupdate left 1 freed 18 taken 19\ncost 4 greatest 4\nzone 0 0 1\nacc 0 at 1 0 0 pull 7635497415 0 0 met 1\nacc 1 at 7 0 0 pull -7635497415 0 0 met 1\n";
    let scene = b"body,64,0,0,0\nbody,64,8,0,0\n";
    gives(
        &rt,
        "run --steps 2 --builder update",
        scene,
        Status::Done,
        text,
    )
}

#[test]
fn nothing_is_told_of_the_first_tree(rt: HostRuntime) -> Result<(), Fail> {
    updates(&rt, "tree", SWAP, b"tree (b0...b1...)\n", 2)?;
    updates(&rt, "tree", b"", b"tree .\n", 0)?;
    let text = b"frame 0\ntree (b0...b1...)\ncells 1 depth 1\n";
    updates(
        &rt,
        "passes",
        b"body,1,0,0,0\nbody,1,1048576,0,0\n",
        text,
        2,
    )
}

#[test]
fn no_body_has_no_cell(rt: HostRuntime) -> Result<(), Fail> {
    let text =
        b"frame 0\ntree .\ncells 0 depth 0\nframe 1\ntree .\ncells 0 depth 0\nupdate left 0 freed 0 taken 0\n";
    updates(&rt, "passes", b"pass\n", text, 0)?;
    // a body alone has the whole cube for its own
    let text =
        b"frame 0\ntree b0\ncells 0 depth 0\nframe 1\ntree b0\ncells 0 depth 0\nupdate left 0 freed 0 taken 0\n";
    updates(
        &rt,
        "passes",
        b"body,1,0,0,0\nmove,0,2097151,0,0\n",
        text,
        1,
    )
}

/// Two bodies that change places so many times, and the text of the frames.
fn swaps(alloc: Global, times: u32) -> Result<(Vec<u8>, Vec<u8>), Fail> {
    let mut scene = b"body,1,0,0,0\nbody,1,1048576,0,0\n".to_vec(alloc)?;
    let mut text = b"frame 0\ntree (b0...b1...)\ncells 1 depth 1\n".to_vec(alloc)?;
    for pass in 1..=times {
        let (there, here) = (pass % 2, 1 - pass % 2);
        let moves = format!(in alloc; "move,{there},0,0,0\nmove,{here},1048576,0,0\npass\n")?;
        scene.extend_from_slice(moves.as_bytes())?;
        let frame = format!(in alloc;
            "frame {pass}\ntree (b{there}...b{here}...)\ncells 1 depth 1\nupdate left 2 freed 1 taken 1\n"
        )?;
        text.extend_from_slice(frame.as_bytes())?;
    }
    Ok((scene, text))
}

#[test]
fn two_bodies_change_places_a_thousand_times(rt: HostRuntime) -> Result<(), Fail> {
    let (scene, text) = swaps(rt.alloc(), 1000)?;
    updates(&rt, "passes", &scene, &text, 2002)
}
