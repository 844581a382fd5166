//! What the yards count after runs that end in each way.

use crate::serving::{Ends, run_at, sure_ends};
use build_gate::OpenGate;
use nbody_cli::Status;
use std::process::Abort;
use std::sync::Wait;
use std::test::Fail;
use std::thread::Threads;

/// Two bodies in two octants.
const PAIR: &[u8] = b"body,1,0,0,0\nbody,1,1048576,0,0\n";

/// How many bodies a run puts into trees, each by one publication: in the yard whose trees have locks,
/// and in the other one.
type Bodies = (u64, u64);

/// The run of these words over a scene ends so, and its yards count so many bodies.
fn counts<R: Abort + AllocGlobal + Threads + Wait + Sync>(
    rt: &R,
    line: &str,
    scene: &[u8],
    ends: &Ends,
    wanted: Status,
    bodies: Bodies,
) -> Result<(), Fail> {
    let ran = run_at(rt, line, scene, ends, &OpenGate)?;
    assert_eq!(rt; ran.status, wanted, "{line}");
    assert_eq!(rt; ran.locked.published, bodies.0, "{line}");
    assert_eq!(rt; ran.locked.changes, bodies.0, "{line}");
    assert_eq!(rt; ran.free.published, bodies.1, "{line}");
    assert_eq!(rt; ran.free.changes, bodies.1, "{line}");
    Ok(())
}

#[test]
fn bodies_are_counted_at_the_end(rt: HostRuntime) -> Result<(), Fail> {
    let rows: [(&str, &[u8], Status, Bodies); 9] = [
        ("tree", b"", Status::Done, (0, 0)),
        ("tree", PAIR, Status::Done, (2, 0)),
        ("run --workers 3", PAIR, Status::Done, (2, 0)),
        ("tree --builder local", PAIR, Status::Done, (0, 2)),
        (
            "run --builder local --workers 3",
            PAIR,
            Status::Done,
            (0, 2),
        ),
        ("run --builder space", PAIR, Status::Done, (0, 0)),
        ("walk", PAIR, Status::Usage, (0, 0)),
        ("tree", b"star\n", Status::Scene, (0, 0)),
        ("tree --builder local", b"star\n", Status::Scene, (0, 0)),
    ];
    for (line, scene, status, bodies) in rows {
        counts(&rt, line, scene, &sure_ends(1000), status, bodies)?;
    }
    Ok(())
}

#[test]
fn one_worker_of_partree_publishes_once(rt: HostRuntime) -> Result<(), Fail> {
    let rows: [(&[u8], u64, u64); 2] = [(b"", 0, 0), (PAIR, 2, 1)];
    for (scene, bodies, changes) in rows {
        let ran = run_at(
            &rt,
            "tree --builder partree",
            scene,
            &sure_ends(100),
            &OpenGate,
        )?;
        assert_eq!(rt; ran.status, Status::Done);
        assert_eq!(rt; ran.free.published, bodies);
        assert_eq!(rt; ran.free.changes, changes);
    }
    Ok(())
}

#[test]
fn a_failing_read_counts_no_body(rt: HostRuntime) -> Result<(), Fail> {
    let broken = Ends {
        failing_reads: &[2],
        ..sure_ends(1000)
    };
    for line in ["tree", "tree --builder local"] {
        counts(&rt, line, PAIR, &broken, Status::Read, (0, 0))?;
    }
    Ok(())
}

#[test]
fn bodies_are_counted_where_a_write_fails(rt: HostRuntime) -> Result<(), Fail> {
    let rows: [(&str, &[u8], Bodies); 4] = [
        // the tree is made before its text is written
        ("tree", PAIR, (2, 0)),
        ("tree --builder local", PAIR, (0, 2)),
        ("walk", PAIR, (0, 0)),
        ("tree", b"star\n", (0, 0)),
    ];
    for (line, scene, bodies) in rows {
        counts(&rt, line, scene, &sure_ends(10), Status::Write, bodies)?;
    }
    Ok(())
}
