//! Runs of the top call over sources and sinks of memory.

use bh_outside::{MemorySink, MemorySource};
use build_gate::{Gate, OpenGate};
use free_tree::FreeYard;
use locked_tree::LockedYard;
use nbody_cli::{Status, serve};
use probe::Probe;
use std::alloc::Global;
use std::process::Abort;
use std::sync::Wait;
use std::test::Fail;
use std::thread::Threads;

/// How the two ends of a run behave: how many bytes a read gives and a write takes at most, the
/// numbers of the reads and of the writes that fail, and the room of the sink.
#[derive(Clone, Copy)]
pub struct Ends<'a> {
    pub give: usize,
    pub failing_reads: &'a [u32],
    pub take: usize,
    pub failing_writes: &'a [u32],
    pub room: usize,
}

/// Ends that never fail, with room for a text of so many bytes.
pub fn sure_ends(room: usize) -> Ends<'static> {
    Ends {
        give: 16,
        failing_reads: &[],
        take: 100,
        failing_writes: &[],
        room,
    }
}

/// Words of the command line, given by one text in which a space stands between two of them.
pub fn words_of(alloc: Global, line: &str) -> Result<Vec<String>, Fail> {
    let mut words: Vec<String> = Vec::new(alloc);
    for word in line.split(' ') {
        if !word.is_empty() {
            words.push(String::from_str(alloc, word)?)?;
        }
    }
    Ok(words)
}

/// How many bodies and how many publications a yard counts.
#[derive(Clone, Copy, Drop)]
pub struct Counts {
    pub published: u64,
    pub changes: u64,
}

/// What is seen of a run: how it ended, what it wrote, and what the yard whose trees have locks and the
/// one whose trees have none count, which counted nothing before.
#[derive(Drop)]
pub struct Ran {
    pub status: Status,
    pub text: Vec<u8>,
    pub locked: Counts,
    pub free: Counts,
}

/// The run of these words over a scene, whose workers pass a gate, with these probes.
pub fn run_probed<R: Abort + AllocGlobal + Threads + Wait + Sync, G: Gate>(
    rt: &R,
    line: &str,
    scene: &[u8],
    ends: &Ends,
    gate: &G,
    probes: Vec<Box<dyn Probe>>,
) -> Result<Ran, Fail> {
    let alloc = rt.alloc();
    let words = words_of(alloc, line)?;
    let reads = ends.failing_reads.to_vec(alloc)?;
    let writes = ends.failing_writes.to_vec(alloc)?;
    let mut source = MemorySource::new(scene.to_vec(alloc)?, ends.give.max(1), reads);
    let mut sink = MemorySink::new(alloc, ends.room, ends.take.max(1), writes)?;
    let mut locked = LockedYard::new();
    let mut free = FreeYard::new();
    let status = serve(
        rt,
        &words,
        &mut source,
        &mut sink,
        &mut locked,
        &mut free,
        gate,
        probes,
    );
    Ok(Ran {
        status,
        text: sink.bytes().to_vec(alloc)?,
        locked: Counts {
            published: locked.published(),
            changes: locked.changes(),
        },
        free: Counts {
            published: free.published(),
            changes: free.changes(),
        },
    })
}

/// The run of these words over a scene, whose workers pass a gate, without probes.
pub fn run_at<R: Abort + AllocGlobal + Threads + Wait + Sync, G: Gate>(
    rt: &R,
    line: &str,
    scene: &[u8],
    ends: &Ends,
    gate: &G,
) -> Result<Ran, Fail> {
    run_probed(rt, line, scene, ends, gate, Vec::new(rt.alloc()))
}

/// How a run of these words over a scene ends, and what it writes.
pub fn run_with<R: Abort + AllocGlobal + Threads + Wait + Sync>(
    rt: &R,
    line: &str,
    scene: &[u8],
    ends: &Ends,
) -> Result<(Status, Vec<u8>), Fail> {
    let ran = run_at(rt, line, scene, ends, &OpenGate)?;
    Ok((ran.status, ran.text))
}

/// The run of these words over a scene ends so, and writes just this text.
pub fn gives<R: Abort + AllocGlobal + Threads + Wait + Sync>(
    rt: &R,
    line: &str,
    scene: &[u8],
    wanted: Status,
    text: &[u8],
) -> Result<(), Fail> {
    let (status, written) = run_with(rt, line, scene, &sure_ends(text.len() + 1000))?;
    assert_eq!(rt; status, wanted, "{line}");
    assert!(rt; written.as_slice() == text, "{line}");
    Ok(())
}
