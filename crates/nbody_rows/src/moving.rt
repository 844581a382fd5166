//! Passes and several steps: what frames show after moves, and after motion.

use crate::serving::{Ends, gives, run_at, run_with, sure_ends};
use build_gate::OpenGate;
use nbody_cli::Status;
use std::process::Abort;
use std::sync::Wait;
use std::test::Fail;
use std::thread::Threads;

#[test]
fn passes_show_the_tree_before_and_after_each(rt: HostRuntime) -> Result<(), Fail> {
    let rows: [(&[u8], &[u8]); 6] = [
        // no pass
        (
            b"body,1,0,0,0\nbody,1,1048576,0,0\n",
            b"frame 0\ntree (b0...b1...)\ncells 1 depth 1\n",
        ),
        // a body leaves a deep cell
        (
            b"body,1,0,0,0\nbody,1,0,0,1\nmove,1,1048576,0,0\npass\n",
            b"frame 0\ntree (((((((((((((((((((((b0b1......).......).......).......).......).......).......).......).......).......).......).......).......).......).......).......).......).......).......).......).......)\ncells 21 depth 21\nframe 1\ntree (b0...b1...)\ncells 1 depth 1\n",
        ),
        // two bodies change places
        (
            b"body,1,0,0,0\nbody,1,1048576,0,0\nmove,0,1048576,0,0\nmove,1,0,0,0\npass\n",
            b"frame 0\ntree (b0...b1...)\ncells 1 depth 1\nframe 1\ntree (b1...b0...)\ncells 1 depth 1\n",
        ),
        // the end of the input ends the pass
        (
            b"body,1,0,0,0\nbody,1,1048576,0,0\nmove,0,5,0,0\n",
            b"frame 0\ntree (b0...b1...)\ncells 1 depth 1\nframe 1\ntree (b0...b1...)\ncells 1 depth 1\n",
        ),
        // a pass of no move over no body
        (
            b"pass\n",
            b"frame 0\ntree .\ncells 0 depth 0\nframe 1\ntree .\ncells 0 depth 0\n",
        ),
        // each pass goes on from the one before
        (
            b"body,1,0,0,0\nbody,1,1048576,0,0\nmove,0,0,0,1048576\npass\nmove,1,0,0,0\npass\n",
            b"frame 0\ntree (b0...b1...)\ncells 1 depth 1\nframe 1\ntree (.b0..b1...)\ncells 1 depth 1\nframe 2\ntree (b1b0......)\ncells 1 depth 1\n",
        ),
    ];
    for (scene, text) in rows {
        gives(&rt, "passes", scene, Status::Done, text)?;
    }
    Ok(())
}

#[test]
fn moves_that_are_refused(rt: HostRuntime) -> Result<(), Fail> {
    let rows: [(&str, &[u8], &[u8]); 7] = [
        (
            "passes",
            b"body,1,0,0,0\nbody,1,1048576,0,0\nmove,0,1048576,0,0\npass\n",
            b"refused pass-coincident 4 0 1\n",
        ),
        // the pass that the end of the input ends
        (
            "tree",
            b"body,1,0,0,0\nbody,1,1048576,0,0\nmove,0,1048576,0,0\n",
            b"refused pass-coincident 4 0 1\n",
        ),
        (
            "tree",
            b"body,1,0,0,0\npass\nbody,1,1,0,0\n",
            b"refused body-after-move 3\n",
        ),
        (
            "run --steps 3",
            b"body,1,0,0,0\npass\nbody,1,0,0,0\n",
            b"refused coincident 3 0 1\n",
        ),
        (
            "tree",
            b"body,1,0,0,0\nmove,1,5,5,5\npass\n",
            b"refused unknown-body 2\n",
        ),
        (
            "tree",
            b"body,1,0,0,0\nmove,0,1,0,0\nmove,0,2,0,0\npass\n",
            b"refused moved-twice 3 0\n",
        ),
        ("passes", b"pass,\n", b"refused bad-record 1\n"),
    ];
    for (line, scene, text) in rows {
        gives(&rt, line, scene, Status::Scene, text)?;
    }
    Ok(())
}

#[test]
fn a_pass_too_many_is_refused(rt: HostRuntime) -> Result<(), Fail> {
    let mut many: Vec<u8> = Vec::new(rt.alloc());
    for _ in 0..1025 {
        many.extend_from_slice(b"pass\n")?;
    }
    gives(
        &rt,
        "passes",
        &many,
        Status::Scene,
        b"refused too-many 1025\n",
    )
}

#[test]
fn a_body_stays_where_another_is_in_its_way(rt: HostRuntime) -> Result<(), Fail> {
    // Two bodies in one deep cell: the second frame has the costs that the first one's terms give.
    let text =
        b"frame 0\ntree (((((((((((((((((((((b0...b1...).......).......).......).......).......).......).......).......).......).......).......).......).......).......).......).......).......).......).......).......)\ncells 21 depth 21\ncost 2 greatest 2\nzone 0 0 1\nacc 0 at 0 0 0 pull 4294967296 0 0 met 1\nacc 1 at 1 0 0 pull -4294967296 0 0 met 1\nframe 1\ntree (((((((((((((((((((((b0...b1...).......).......).......).......).......).......).......).......).......).......).......).......).......).......).......).......).......).......).......).......)\ncells 21 depth 21\ncost 4 greatest 4\nzone 0 0 1\nacc 0 at 0 0 0 pull 4294967296 0 0 met 1\nacc 1 at 1 0 0 pull -4294967296 0 0 met 1\n";
    gives(
        &rt,
        "run --steps 2",
        b"body,1,0,0,0\nbody,1,1,0,0\n",
        Status::Done,
        text,
    )
}

#[test]
fn two_heavy_bodies_draw_together(rt: HostRuntime) -> Result<(), Fail> {
    let text =
        b"frame 0\ntree ((((((((((((((((((b0...b1...).......).......).......).......).......).......).......).......).......).......).......).......).......).......).......).......).......)\ncells 18 depth 18\ncost 2 greatest 2\nzone 0 0 1\nacc 0 at 0 0 0 pull 4294967296 0 0 met 1\nacc 1 at 8 0 0 pull -4294967296 0 0 met 1\nframe 1\ntree (((((((((((((((((((b0...b1...).......).......).......).......).......).......).......).......).......).......).......).......).......).......).......).......).......).......)\ncells 19 depth 19\ncost 4 greatest 4\nzone 0 0 1\nacc 0 at 1 0 0 pull 7635497415 0 0 met 1\nacc 1 at 7 0 0 pull -7635497415 0 0 met 1\n";
    for builder in ["orig", "local", "partree"] {
        let line = format!(in rt.alloc(); "run --steps 2 --builder {builder}")?;
        let scene = b"body,64,0,0,0\nbody,64,8,0,0\n";
        gives(&rt, &line, scene, Status::Done, text)?;
    }
    Ok(())
}

#[test]
fn pieces_stand_behind_the_size_of_each_tree(rt: HostRuntime) -> Result<(), Fail> {
    let text =
        b"frame 0\ntree (b0...b1...)\ncells 1 depth 1\npieces 2\nframe 1\ntree (b1...b0...)\ncells 1 depth 1\npieces 2\n";
    gives(
        &rt,
        "passes --builder space",
        b"body,1,0,0,0\nbody,1,1048576,0,0\nmove,0,1048576,0,0\nmove,1,0,0,0\npass\n",
        Status::Done,
        text,
    )
}

/// Two bodies that change places: two frames, with 42 bytes in the first.
const SWAP: &[u8] = b"body,1,0,0,0\nbody,1,1048576,0,0\nmove,0,1048576,0,0\nmove,1,0,0,0\npass\n";

#[test]
fn all_frames_before_the_one_that_failed_are_written(rt: HostRuntime) -> Result<(), Fail> {
    let (_, whole) = run_with(&rt, "passes", SWAP, &sure_ends(1000))?;
    assert_eq!(rt; whole.len(), 84);
    for room in 0..84usize {
        let ran = run_at(&rt, "passes", SWAP, &sure_ends(room), &OpenGate)?;
        assert_eq!(rt; ran.status, Status::Write);
        assert!(rt; room <= whole.len());
        assert!(rt; ran.text.as_slice() == &whole[..room]);
        // The second tree is made where the first frame is written, and not before.
        let trees = if room < 42 { 1 } else { 2 };
        assert_eq!(rt; ran.locked.published, 2 * trees);
    }
    let ends = Ends {
        failing_writes: &[2],
        ..sure_ends(1000)
    };
    let ran = run_at(&rt, "passes --builder local", SWAP, &ends, &OpenGate)?;
    assert_eq!(rt; ran.status, Status::Write);
    let first = b"frame 0\ntree (b0...b1...)\ncells 1 depth 1\n".as_slice();
    assert!(rt; ran.text.as_slice() == first);
    assert_eq!(rt; ran.free.changes, 4);
    Ok(())
}

/// The counts of the yards after a run of these words: those of the one with locks, and of the other.
fn counted<R: Abort + AllocGlobal + Threads + Wait + Sync>(
    rt: &R,
    line: &str,
    scene: &[u8],
) -> Result<(u64, u64), Fail> {
    let ran = run_at(rt, line, scene, &sure_ends(1 << 16), &OpenGate)?;
    assert_eq!(rt; ran.status, Status::Done, "{line}");
    Ok((ran.locked.changes, ran.free.changes))
}

#[test]
fn each_tree_is_counted(rt: HostRuntime) -> Result<(), Fail> {
    assert!(rt; counted(&rt, "passes", SWAP)? == (4, 0));
    assert!(rt; counted(&rt, "passes --builder local", SWAP)? == (0, 4));
    assert!(rt; counted(&rt, "passes --builder update", SWAP)? == (0, 4));
    assert!(rt; counted(&rt, "passes --builder partree", SWAP)? == (0, 2));
    assert!(rt; counted(&rt, "passes --builder space", SWAP)? == (0, 0));
    assert!(rt; counted(&rt, "run --steps 5", SWAP)? == (10, 0));
    assert!(rt; counted(&rt, "run --steps 5 --builder local", SWAP)? == (0, 10));
    // no body leaves its cell
    assert!(rt; counted(&rt, "run --steps 5 --builder update", SWAP)? == (0, 2));
    assert!(rt; counted(&rt, "tree --steps 5", SWAP)? == (2, 0));
    Ok(())
}
