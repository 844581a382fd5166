//! Probes of runs over two bodies side by side, which stay where they are.

use crate::serving::{run_probed, run_with, sure_ends};
use build_gate::OpenGate;
use nbody_cli::Status;
use probe::{Balance, FirstFrames, Momentum, Probe, RefusingBalance};
use std::alloc::Global;
use std::process::Abort;
use std::sync::Wait;
use std::test::Fail;
use std::thread::Threads;

/// Two bodies side by side: each frame has 21 cells, and every frame but the first the cost 4.
const SCENE: &[u8] = b"body,1,0,0,0\nbody,1,1,0,0\n";

/// The room of a sink.
const ROOM: usize = 4000;

/// The lines of so many frames without probes.
fn frames<R: Abort + AllocGlobal + Threads + Wait + Sync>(
    rt: &R,
    steps: &str,
) -> Result<Vec<u8>, Fail> {
    let mut line = String::from_str(rt.alloc(), "run --steps ")?;
    line.push_str(steps)?;
    let (status, text) = run_with(rt, &line, SCENE, &sure_ends(ROOM))?;
    assert_eq!(rt; status, Status::Done);
    Ok(text)
}

/// A probe that a run is handed.
enum Handed {
    Balance,
    Momentum,
    First(u32),
    /// A balance that refuses the frame after so many, or its line.
    Refusing(u32, bool),
}

/// The probes that a run is handed, one after another.
fn boxed(alloc: Global, handed: &[Handed]) -> Result<Vec<Box<dyn Probe>>, Fail> {
    let mut probes: Vec<Box<dyn Probe>> = Vec::new(alloc);
    for probe in handed {
        match *probe {
            Handed::Balance => probes.push(Box::new(alloc, Balance::new())?)?,
            Handed::Momentum => probes.push(Box::new(alloc, Momentum::new())?)?,
            Handed::First(n) => probes.push(Box::new(alloc, FirstFrames::new(n))?)?,
            Handed::Refusing(good, line) => {
                probes.push(Box::new(alloc, RefusingBalance::new(good, line))?)?
            }
        }
    }
    Ok(probes)
}

/// A run of these words with these probes, how it ends, and what it writes: the lines of `before`
/// frames, the lines `amid`, the lines of the frames from there to `steps`, and the last lines.
struct Row {
    line: &'static str,
    probes: &'static [Handed],
    status: Status,
    before: &'static str,
    amid: &'static [u8],
    steps: &'static str,
    last: &'static [u8],
}

/// A run ends so, and writes just this.
fn tells<R: Abort + AllocGlobal + Threads + Wait + Sync>(rt: &R, row: &Row) -> Result<(), Fail> {
    let first = frames(rt, row.before)?;
    let all = frames(rt, row.steps)?;
    assert!(rt; first.len() <= all.len());
    let mut text = first.as_slice().to_vec(rt.alloc())?;
    text.extend_from_slice(row.amid)?;
    text.extend_from_slice(&all[first.len()..])?;
    text.extend_from_slice(row.last)?;
    let probes = boxed(rt.alloc(), row.probes)?;
    let ran = run_probed(rt, row.line, SCENE, &sure_ends(ROOM), &OpenGate, probes)?;
    assert_eq!(rt; ran.status, row.status, "{}", row.line);
    assert!(rt; ran.text.as_slice() == text.as_slice(), "{}", row.line);
    Ok(())
}

/// Each of these runs ends so, and writes just this.
fn each_tells<R: Abort + AllocGlobal + Threads + Wait + Sync>(
    rt: &R,
    rows: &[Row],
) -> Result<(), Fail> {
    for row in rows {
        tells(rt, row)?;
    }
    Ok(())
}

/// Probes some of which have seen enough, and those that are left.
const ENOUGH: &[Row] = &[
    // those that are left tell their lines at the end
    Row {
        line: "run --steps 2 --probe all",
        probes: &[Handed::Balance, Handed::Momentum, Handed::First(3)],
        status: Status::Done,
        before: "2",
        amid: b"",
        steps: "2",
        last: b"probe balance frames 2 cost 6 greatest 6\nprobe momentum frames 2 push 0 0 0\nprobe first left 1 cells 21\n",
    },
    // one that has seen enough tells its line at once
    Row {
        line: "run --steps 4 --probe all",
        probes: &[Handed::Balance, Handed::Momentum, Handed::First(3)],
        status: Status::Done,
        before: "3",
        amid: b"probe first left 0 cells 21\n",
        steps: "4",
        last: b"probe balance frames 4 cost 14 greatest 14\nprobe momentum frames 4 push 0 0 0\n",
    },
    // one that finishes at the last frame stands before those that are left
    Row {
        line: "run --steps 3 --probe all",
        probes: &[Handed::Balance, Handed::First(3)],
        status: Status::Done,
        before: "3",
        amid: b"",
        steps: "3",
        last: b"probe first left 0 cells 21\nprobe balance frames 3 cost 10 greatest 10\n",
    },
    // of no frames: it finishes at the first
    Row {
        line: "run --steps 2 --probe first",
        probes: &[Handed::First(0)],
        status: Status::Done,
        before: "1",
        amid: b"probe first left 0 cells 21\n",
        steps: "2",
        last: b"",
    },
];

/// Probes that are chosen, and others.
const CHOSEN: &[Row] = &[
    // no probes tell nothing
    Row {
        line: "run --steps 2 --probe all",
        probes: &[],
        status: Status::Done,
        before: "2",
        amid: b"",
        steps: "2",
        last: b"",
    },
    // two of one kind are kept
    Row {
        line: "run --steps 2 --probe first",
        probes: &[Handed::First(5), Handed::Balance, Handed::First(1)],
        status: Status::Done,
        before: "1",
        amid: b"probe first left 0 cells 21\n",
        steps: "2",
        last: b"probe first left 3 cells 21\n",
    },
    // one that is not chosen tells nothing
    Row {
        line: "run --steps 2 --probe momentum",
        probes: &[Handed::First(1), Handed::Refusing(0, true)],
        status: Status::Done,
        before: "2",
        amid: b"",
        steps: "2",
        last: b"",
    },
];

/// Probes that refuse a frame or their line.
const REFUSING: &[Row] = &[
    // its first frame
    Row {
        line: "run --steps 2 --probe balance",
        probes: &[Handed::Refusing(0, false)],
        status: Status::Memory,
        before: "1",
        amid: b"",
        steps: "1",
        last: b"",
    },
    // a later frame
    Row {
        line: "run --steps 2 --probe balance",
        probes: &[Handed::Refusing(1, false)],
        status: Status::Memory,
        before: "2",
        amid: b"",
        steps: "2",
        last: b"",
    },
    // its line
    Row {
        line: "run --steps 2 --probe balance",
        probes: &[Handed::Refusing(9, true)],
        status: Status::Memory,
        before: "2",
        amid: b"",
        steps: "2",
        last: b"",
    },
];

#[test]
fn probes_tell_their_lines_when_they_have_seen_enough_or_at_the_end(
    rt: HostRuntime,
) -> Result<(), Fail> {
    each_tells(&rt, ENOUGH)
}

#[test]
fn just_the_chosen_probes_are_kept(rt: HostRuntime) -> Result<(), Fail> {
    each_tells(&rt, CHOSEN)
}

#[test]
fn a_probe_that_refuses_ends_the_run(rt: HostRuntime) -> Result<(), Fail> {
    each_tells(&rt, REFUSING)
}
