//! Times the phases of a frame.
//!
//! Usage: frame_times NUM DEN ROUNDS < SCENE
//!
//! It reads a scene and makes its first two frames with the opening angle NUM / DEN so many times, by one
//! worker and by four in turns, writes the tree's text each time to standard output, and tells on
//! standard error the least time of each phase in nanoseconds, and how many terms the pulls have. The
//! phases are those of one worker, and the time of the pulls is that of the first frame without its
//! moments and its zones: laying the flat table and the sums are in it. Of each of the two frames come
//! with each number of workers its time (`frame`), the time of the worker who walked the longest
//! (`walk`), and that over the mean of all workers, in thousandths (`balance`). In the second frame, which
//! is `later`, zones are cut by the terms of the first one. With other words it tells nothing.
#![tactic(auto)]

mod gate;

ghost use Rattle.std.specs.Prelude.{◌≡◌, All, IfOk, OnOk, length};
ghost use Rattle.bh_model.specs.Plans.{HasWorkers};
ghost use Rattle.frame_core.specs.Engines.{WithFrame, WithTree};
ghost use Rattle.mass_moments.specs.Kept.{IsCost};

use bh_model::{Builder, Law, Plan};
use bh_outside::{Input, Sink, StdSink, StdSource, keep_blocks, read_all};
use build_gate::OpenGate;
use costzones::zones;
use frame_core::Engine;
use gate::NotingGate;
use locked_tree::LockedYard;
use mass_moments::moments;
use octant_code::OutOfMemory;
use octree::Octree;
use scene_file::{Bodies, MOST_BYTES, read_scene};
use std::alloc::Global;
use std::env;
use std::rt::Clock;
use std::sync::Wait;
use std::thread::Threads;
use std::time::Instant;

/// The times of a frame, in nanoseconds, and its balance, in thousandths.
#[derive(Clone, Copy)]
struct FrameTimes {
    whole: u128,
    walk: u64,
    balance: u64,
    met: u64,
}

impl FrameTimes {
    /// More than any frame takes.
    fn longest() -> FrameTimes {
        FrameTimes {
            whole: u128::MAX,
            walk: u64::MAX,
            balance: u64::MAX,
            met: 0,
        }
    }

    /// The least of both, figure by figure.
    fn least(self, other: FrameTimes) -> FrameTimes {
        FrameTimes {
            whole: self.whole.min(other.whole),
            walk: self.walk.min(other.walk),
            balance: self.balance.min(other.balance),
            met: other.met,
        }
    }
}

/// The times of the first two frames of a run.
#[derive(Clone, Copy)]
struct RunTimes {
    first: FrameTimes,
    later: FrameTimes,
}

impl RunTimes {
    /// More than any run takes.
    fn longest() -> RunTimes {
        RunTimes {
            first: FrameTimes::longest(),
            later: FrameTimes::longest(),
        }
    }

    /// The least of both, figure by figure.
    fn least(self, other: RunTimes) -> RunTimes {
        RunTimes {
            first: self.first.least(other.first),
            later: self.later.least(other.later),
        }
    }
}

/// The least times of the phases so far, in nanoseconds, and those of frames by one worker and by four.
#[derive(Clone, Copy)]
struct Times {
    reading: u128,
    tree: u128,
    counts: u128,
    text: u128,
    moments: u128,
    zones: u128,
    zones_of_four: u128,
    one: RunTimes,
    four: RunTimes,
}

impl Times {
    /// More than any round takes.
    fn longest() -> Times {
        Times {
            reading: u128::MAX,
            tree: u128::MAX,
            counts: u128::MAX,
            text: u128::MAX,
            moments: u128::MAX,
            zones: u128::MAX,
            zones_of_four: u128::MAX,
            one: RunTimes::longest(),
            four: RunTimes::longest(),
        }
    }

    /// The least of both, phase by phase.
    fn least(self, other: Times) -> Times {
        Times {
            reading: self.reading.min(other.reading),
            tree: self.tree.min(other.tree),
            counts: self.counts.min(other.counts),
            text: self.text.min(other.text),
            moments: self.moments.min(other.moments),
            zones: self.zones.min(other.zones),
            zones_of_four: self.zones_of_four.min(other.zones_of_four),
            one: self.one.least(other.one),
            four: self.four.least(other.four),
        }
    }

    /// The time of a frame without its moments and its zones.
    fn pulls(&self, frame: u128, zones: u128) -> u128 {
        frame.saturating_sub(self.moments.saturating_add(zones))
    }
}

/// A cost of 1 for each body.
fn costs_of(alloc: Global, bodies: &Bodies) -> Result<Vec<u32>, OutOfMemory>
    ensures one_each { IfOk result (λ costs. length costs.items ≡ length bodies.now) }
    ensures costs { IfOk result (λ costs. All IsCost costs.items) }
{
    match vec![in alloc; 1u32; bodies.len() as usize] {
        Ok(costs) => Ok(costs),
        Err(_) => Err(OutOfMemory),
    }
}

/// The nanoseconds since a moment.
fn since<R: Clock>(rt: &R, start: Instant) -> anyhow::Result<u128> {
    Ok(start.elapsed(rt)?.as_nanos())
}

/// Times the phases up to the zones, each by itself.
fn time_parts<R: Clock, K: Sink>(
    rt: &R,
    alloc: Global,
    bodies: &Bodies,
    sink: &mut K,
) -> anyhow::Result<Times> {
    let mut times = Times::longest();
    let start = Instant::now(rt)?;
    let points = bodies.points(alloc)?;
    let tree = Octree::of_points(alloc, &points)?;
    times.tree = since(rt, start)?;
    let start = Instant::now(rt)?;
    let _extent = tree.extent();
    times.counts = since(rt, start)?;
    let start = Instant::now(rt)?;
    let _whole = tree.write_text(sink).is_ok();
    times.text = since(rt, start)?;
    let costs = costs_of(alloc, bodies)?;
    let start = Instant::now(rt)?;
    let table = moments(rt, alloc, &tree, bodies, &costs)?;
    times.moments = since(rt, start)?;
    let start = Instant::now(rt)?;
    let _zones = zones(alloc, &tree, &table, &costs, 1)?;
    times.zones = since(rt, start)?;
    let start = Instant::now(rt)?;
    let _zones_of_four = zones(alloc, &tree, &table, &costs, 4)?;
    times.zones_of_four = since(rt, start)?;
    Ok(times)
}

/// Times the frame of an engine, which so many workers make.
fn time_frame<R: Clock + Threads + Sync>(
    rt: &R,
    workers: u32,
    engine: &mut Engine,
) -> anyhow::Result<FrameTimes>
    requires { engine.old.stage ≡ WithTree }
    ensures made { OnOk result (engine.new.stage ≡ WithFrame) }
    ensures builder { OnOk result (engine.new.plan.builder ≡ engine.old.plan.builder) }
{
    let start = Instant::now(rt)?;
    let gate = NotingGate::new(rt, start);
    let frame = engine.frame(rt, &gate)?;
    let whole = since(rt, start)?;
    let thousandths = gate.greatest().saturating_mul(1000);
    Ok(FrameTimes {
        whole,
        walk: gate.greatest(),
        balance: thousandths.saturating_mul(u64::from(workers)) / gate.all().max(1),
        met: frame.met,
    })
}

/// Times the first two frames of a scene's bodies, with so many workers.
fn time_run<R: Clock + Threads + Wait + Sync>(
    rt: &R,
    alloc: Global,
    law: Law,
    workers: u32,
    bodies: Bodies,
) -> anyhow::Result<RunTimes>
    requires { HasWorkers workers }
{
    let plan = Plan {
        builder: Builder::Orig,
        workers,
        law,
    };
    let mut engine = Engine::open(alloc, plan, bodies)?;
    let mut locked = LockedYard::new();
    engine.tree(rt, &mut locked, &OpenGate)?;
    let first = time_frame(rt, workers, &mut engine)?;
    engine.drift()?;
    engine.tree(rt, &mut locked, &OpenGate)?;
    let later = time_frame(rt, workers, &mut engine)?;
    Ok(RunTimes { first, later })
}

/// Times one round over a scene.
fn time_round<R: Clock + Threads + Wait + Sync, K: Sink>(
    rt: &R,
    alloc: Global,
    law: Law,
    bytes: &[u8],
    sink: &mut K,
) -> anyhow::Result<Times> {
    let start = Instant::now(rt)?;
    let scene = read_scene(alloc, bytes)?;
    let reading = since(rt, start)?;
    let parts = time_parts(rt, alloc, &scene.bodies, sink)?;
    let again = read_scene(alloc, bytes)?;
    let one = time_run(rt, alloc, law, 1, scene.bodies)?;
    let four = time_run(rt, alloc, law, 4, again.bodies)?;
    Ok(Times {
        reading,
        one,
        four,
        ..parts
    })
}

/// The least times of some rounds over a scene.
fn times_of<R: Clock + Threads + Wait + Sync, K: Sink>(
    rt: &R,
    alloc: Global,
    law: Law,
    rounds: u32,
    bytes: &[u8],
    sink: &mut K,
) -> anyhow::Result<Times> {
    let mut least = Times::longest();
    for _ in 0..rounds {
        least = least.least(time_round(rt, alloc, law, bytes, sink)?);
    }
    Ok(least)
}

/// The law with an opening angle, where that is within its limits.
fn law_of(theta_num: u32, theta_den: u32) -> Option<Law> {
    if theta_num > 65_535 || theta_den < 1 || theta_den > 65_535 {
        return None;
    }
    Some(Law {
        theta_num,
        theta_den,
        eps2: 0,
        g: 4_294_967_296,
    })
}

/// A number of a word.
fn number_of(words: &[String], place: usize) -> Option<u32> {
    words.get(place)?.parse::<u32>().ok()
}

/// The law and the rounds that the words ask for.
fn asked(words: &[String]) -> Option<(Law, u32)> {
    let law = law_of(number_of(words, 0)?, number_of(words, 1)?)?;
    Some((law, number_of(words, 2)?))
}

/// Tells the times of a frame, a line for each.
fn tell_frame<R: Eprint>(rt: &R, name: &str, times: &FrameTimes) -> anyhow::Result<()> {
    eprintln!(rt; "frame{name} {}", times.whole)?;
    eprintln!(rt; "walk{name} {}", times.walk)?;
    eprintln!(rt; "balance{name} {}", times.balance)?;
    Ok(())
}

/// Tells the times, a line for each.
fn tell<R: Eprint>(rt: &R, times: &Times) -> anyhow::Result<()> {
    let lines = [
        ("reading", times.reading),
        ("tree", times.tree),
        ("counts", times.counts),
        ("text", times.text),
        ("moments", times.moments),
        ("zones", times.zones),
        ("pulls", times.pulls(times.one.first.whole, times.zones)),
        (
            "pulls.4",
            times.pulls(times.four.first.whole, times.zones_of_four),
        ),
        ("met", u128::from(times.one.first.met)),
    ];
    for (name, number) in lines {
        eprintln!(rt; "{name} {number}")?;
    }
    tell_frame(rt, ".1", &times.one.first)?;
    tell_frame(rt, ".4", &times.four.first)?;
    tell_frame(rt, ".1.later", &times.one.later)?;
    tell_frame(rt, ".4.later", &times.four.later)
}

fn main(rt: HostRuntime) -> anyhow::Result<()> {
    let alloc = rt.alloc();
    keep_blocks(alloc)?;
    let words: Vec<String> = env::args(&rt)?.skip(1).collect(alloc)?;
    let Some((law, rounds)) = asked(&words) else {
        return Ok(());
    };
    let mut source = StdSource::new(rt.stdin());
    let Input::Whole(bytes) = read_all(alloc, &mut source, MOST_BYTES)? else {
        return Ok(());
    };
    let mut sink = StdSink::new(rt.stdout());
    let times = times_of(&rt, alloc, law, rounds, &bytes, &mut sink)?;
    tell(&rt, &times)
}
