//! Times the phases of builders beside insertion by one thread.
//!
//! Usage: build_times ROUNDS < SCENE
//!
//! It reads a scene, builds the octree of its bodies in rounds, and tells on standard error the times in
//! nanoseconds, each on a line with its name. In each round come, one after another, `Octree::of_points`
//! (`sorted`), insertion by one thread in the order of the bodies' numbers (`plain`), and the builders
//! ORIG, LOCAL, PARTREE and SPACE (`orig`, `local`, `partree` and `space`) with 1 to 4 workers, whose
//! shares are those of the first frame. A builder's phases are `open`, up to the first worker's start,
//! `insert`, up to the last worker's end, and `close`, in which the workers are joined and the yard is
//! closed, or the parts are put together; `free` is the time to give its octree back. Each is the least of all
//! rounds, but the `first` ones, which are those of the process's first tree, by one worker of ORIG. With
//! other words it tells nothing.
#![tactic(auto)]

mod gate;
mod one_thread;

ghost use Rattle.bh_model.specs.Plans.{HasWorkers};

use bh_outside::{Input, StdSource, keep_blocks, read_all};
use frame_core::first_shares;
use free_tree::FreeYard;
use gate::NotingGate;
use locked_tree::LockedYard;
use octant_code::Points;
use octree::Octree;
use one_thread::insert_all;
use scene_file::{MOST_BYTES, read_scene};
use std::alloc::{AllocError, Global};
use std::env;
use std::sync::{Arc, Wait};
use std::thread::Threads;
use std::time::{Clock, Instant};

/// Up to how many workers a builder is timed with.
const MOST_WORKERS: usize = 4;

/// How many builds a round has: each of the four builders with 1 to 4 workers.
const BUILDS: usize = 4 * MOST_WORKERS;

/// A builder.
#[derive(Clone, Copy, Debug, PartialEq, Eq)]
enum Builder {
    Orig,
    Local,
    Partree,
    Space,
}

/// The times of a builder's phases, in nanoseconds.
#[derive(Clone, Copy, Drop)]
struct Phases {
    open: u64,
    insert: u64,
    close: u64,
    free: u64,
}

/// The least times of all rounds, in nanoseconds: of one thread in key order, with the sort, and in
/// number order, and of the phases of each build, in the order of the builds of a round.
#[derive(Drop)]
struct Times {
    sorted: u64,
    plain: u64,
    builds: Vec<Phases>,
}

impl Builder {
    /// The builder's name in what is told.
    fn name(self) -> &'static str {
        match self {
            Builder::Orig => "orig",
            Builder::Local => "local",
            Builder::Partree => "partree",
            Builder::Space => "space",
        }
    }
}

impl Phases {
    /// The least of both, phase by phase.
    fn least(self, other: Phases) -> Phases {
        Phases {
            open: self.open.min(other.open),
            insert: self.insert.min(other.insert),
            close: self.close.min(other.close),
            free: self.free.min(other.free),
        }
    }
}

impl Times {
    /// Times of no round: as long as can be.
    fn longest(alloc: Global) -> Result<Times, AllocError> {
        let longest = Phases {
            open: u64::MAX,
            insert: u64::MAX,
            close: u64::MAX,
            free: u64::MAX,
        };
        Ok(Times {
            sorted: u64::MAX,
            plain: u64::MAX,
            builds: vec![in alloc; longest; BUILDS]?,
        })
    }
}

/// The builder of a build of a round.
fn builder_of(build: usize) -> Builder {
    match build / MOST_WORKERS {
        0 => Builder::Orig,
        1 => Builder::Local,
        2 => Builder::Partree,
        _ => Builder::Space,
    }
}

/// The number of workers of a build of a round.
fn workers_of(build: usize) -> u32
    ensures { HasWorkers result }
{
    1 + (build % MOST_WORKERS) as u32
}

/// The nanoseconds since a moment.
fn since<R: Clock>(rt: &R, start: Instant) -> anyhow::Result<u64> {
    Ok(u64::try_from(start.elapsed(rt)?.as_nanos())?)
}

/// The times of the phases of a build that passed a gate, until its octree was made and until it was
/// given back.
fn phases_of<R: Clock>(gate: &NotingGate<'_, R>, built: u64, freed: u64) -> Phases {
    Phases {
        open: gate.first(),
        insert: gate.last().saturating_sub(gate.first()),
        close: built.saturating_sub(gate.last()),
        free: freed.saturating_sub(built),
    }
}

/// The times of the phases of one build by a builder and so many workers. The shares are made before
/// the clock starts; SPACE makes its own.
fn time_build<R: Clock + Threads + Wait + Sync>(
    rt: &R,
    alloc: Global,
    points: &Arc<Points>,
    builder: Builder,
    workers: u32,
) -> anyhow::Result<Phases>
    requires { HasWorkers workers }
{
    let shares = first_shares(alloc, workers, points.len())?;
    let mut locked = LockedYard::new();
    let mut free = FreeYard::new();
    let start = Instant::now(rt)?;
    let gate = NotingGate::new(rt, start);
    let made = match builder {
        Builder::Orig => orig_build::build(rt, alloc, &mut locked, points, &shares, &gate),
        Builder::Local => local_build::build(rt, alloc, &mut free, points, &shares, &gate),
        Builder::Partree => partree_merge::build(rt, alloc, &mut free, points, &shares, &gate),
        Builder::Space => space_split::build(rt, alloc, points, workers, &gate),
    };
    let tree = made?;
    let built = since(rt, start)?;
    drop(tree);
    let freed = since(rt, start)?;
    Ok(phases_of(&gate, built, freed))
}

/// Lowers the times of builds to those of one round of them.
fn time_builds<R: Clock + Threads + Wait + Sync>(
    rt: &R,
    alloc: Global,
    points: &Arc<Points>,
    builds: &mut [Phases],
) -> anyhow::Result<()> {
    for build in 0..builds.len() {
        let phases = time_build(rt, alloc, points, builder_of(build), workers_of(build))?;
        builds[build] = builds[build].least(phases);
    }
    Ok(())
}

/// Lowers times to those of one round.
fn time_round<R: Clock + Threads + Wait + Sync>(
    rt: &R,
    alloc: Global,
    points: &Arc<Points>,
    least: &mut Times,
) -> anyhow::Result<()> {
    let start = Instant::now(rt)?;
    let sorted_tree = Octree::of_points(alloc, points)?;
    least.sorted = least.sorted.min(since(rt, start)?);
    drop(sorted_tree);
    let start = Instant::now(rt)?;
    let plain_tree = insert_all(alloc, points)?;
    least.plain = least.plain.min(since(rt, start)?);
    drop(plain_tree);
    time_builds(rt, alloc, points, &mut least.builds)
}

/// The least times of some rounds, of which there is at least one.
fn times_of<R: Clock + Threads + Wait + Sync>(
    rt: &R,
    alloc: Global,
    points: &Arc<Points>,
    rounds: u32,
) -> anyhow::Result<Times> {
    let mut least = Times::longest(alloc)?;
    for _ in 0..rounds.max(1) {
        time_round(rt, alloc, points, &mut least)?;
    }
    Ok(least)
}

/// Tells the times of phases under a name.
fn tell_phases<R: Eprint>(rt: &R, name: &str, phases: Phases) -> anyhow::Result<()> {
    eprintln!(rt;
        "{name}.open {}\n{name}.insert {}",
        phases.open, phases.insert
    )?;
    eprintln!(rt;
        "{name}.close {}\n{name}.free {}",
        phases.close, phases.free
    )?;
    Ok(())
}

/// Tells the times of the first tree, and the least times of all rounds.
fn tell<R: Eprint>(rt: &R, alloc: Global, first: Phases, least: &Times) -> anyhow::Result<()> {
    eprintln!(rt; "sorted {}\nplain {}", least.sorted, least.plain)?;
    tell_phases(rt, "first", first)?;
    for build in 0..least.builds.len() {
        let name = format!(in alloc; "{}.{}", builder_of(build).name(), workers_of(build))?;
        tell_phases(rt, &name, least.builds[build])?;
    }
    Ok(())
}

fn main(rt: HostRuntime) -> anyhow::Result<()> {
    let alloc = rt.alloc();
    keep_blocks(alloc)?;
    let words: Vec<String> = env::args(&rt)?.skip(1).collect(alloc)?;
    let Some(Ok(rounds)) = words.first().map(|word| word.parse::<u32>()) else {
        return Ok(());
    };
    let mut source = StdSource::new(rt.stdin());
    let Input::Whole(bytes) = read_all(alloc, &mut source, MOST_BYTES)? else {
        return Ok(());
    };
    let scene = read_scene(alloc, &bytes)?;
    let points = Arc::new(alloc, scene.bodies.points(alloc)?)?;
    let first = time_build(&rt, alloc, &points, Builder::Orig, 1)?;
    let least = times_of(&rt, alloc, &points, rounds)?;
    tell(&rt, alloc, first, &least)
}
