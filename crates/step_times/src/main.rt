//! Times the phases of a run's steps.
//!
//! Usage: step_times BUILDER WORKERS STEPS < SCENE
//!
//! It reads a scene, runs it for so many steps with a builder (`orig`, `local`, `update`, `partree` or
//! `space`) and so many workers, and tells on standard error, each on a line with its name, the
//! nanoseconds that all steps took by phase: their trees (`tree`), their frames (`frame`) and the motion
//! behind each (`motion`). Then come the least nanoseconds of a motion alone in which each body keeps its
//! whole point (`keep`), and of one in which it leaves it (`leave`). Last come the nanoseconds of the
//! scene's own passes, behind a first tree that isn't counted: their trees (`pass_tree`) and their moves
//! (`moves`). With other words it tells nothing.
#![tactic(auto)]

ghost use Rattle.std.specs.Prelude.{◌≡◌, OnOk, length};
ghost use Rattle.bh_model.specs.Plans.{HasWorkers};
ghost use Rattle.frame_core.specs.Engines.{WithTree, WithoutTree, with_tree};
ghost use Rattle.frame_core.specs.Next.{shifted_by};
ghost use Rattle.scene_file.specs.Moves.{IsPass, IsScene};

use bh_model::{Builder, Law, Plan, Pull};
use bh_outside::{Input, StdSource, keep_blocks, read_all};
use build_gate::OpenGate;
use drift::Motion;
use frame_core::Engine;
use free_tree::FreeYard;
use locked_tree::LockedYard;
use scene_file::{Bodies, MOST_BYTES, Move, Passes, read_scene};
use std::alloc::Global;
use std::env;
use std::rt::Clock;
use std::sync::Wait;
use std::thread::Threads;
use std::time::Instant;

/// How often a motion alone is timed.
const ROUNDS: u32 = 20;

/// An acceleration by which a body at rest goes two position units in a step.
const TWO_UNITS: i128 = 8_589_934_592;

/// The nanoseconds of the phases.
#[derive(Clone, Copy)]
struct Times {
    tree: u128,
    frame: u128,
    motion: u128,
}

impl Times {
    /// The times of both, phase by phase.
    fn and(self, other: Times) -> Times {
        Times {
            tree: self.tree.saturating_add(other.tree),
            frame: self.frame.saturating_add(other.frame),
            motion: self.motion.saturating_add(other.motion),
        }
    }
}

/// The nanoseconds since a moment.
fn since<R: Clock>(rt: &R, start: Instant) -> anyhow::Result<u128> {
    Ok(start.elapsed(rt)?.as_nanos())
}

/// Makes the tree of an engine's points.
fn make_tree<R: Threads + Wait + Sync>(
    rt: &R,
    builder: Builder,
    engine: &mut Engine,
    locked: &mut LockedYard,
    free: &mut FreeYard,
) -> anyhow::Result<()>
    requires bare { engine.old.stage ≡ WithoutTree }
    requires builder { engine.old.plan.builder ≡ builder }
    ensures tree { OnOk result (engine.new ≡ with_tree engine.old) }
{
    match builder {
        Builder::Orig => engine.tree(rt, locked, &OpenGate)?,
        _ => engine.tree_free(rt, free, &OpenGate)?,
    }
    Ok(())
}

/// Times one step: the tree, the frame and the motion.
fn time_step<R: Clock + Threads + Wait + Sync>(
    rt: &R,
    builder: Builder,
    engine: &mut Engine,
    locked: &mut LockedYard,
    free: &mut FreeYard,
) -> anyhow::Result<Times>
    requires bare { engine.old.stage ≡ WithoutTree }
    requires builder { engine.old.plan.builder ≡ builder }
    ensures bare { OnOk result (engine.new.stage ≡ WithoutTree) }
    ensures builder { OnOk result (engine.new.plan.builder ≡ builder) }
{
    let start = Instant::now(rt)?;
    make_tree(rt, builder, engine, locked, free)?;
    let tree = since(rt, start)?;
    let start = Instant::now(rt)?;
    engine.frame(rt, &OpenGate)?;
    let frame = since(rt, start)?;
    let start = Instant::now(rt)?;
    engine.drift()?;
    let motion = since(rt, start)?;
    Ok(Times {
        tree,
        frame,
        motion,
    })
}

/// Times the steps of a run.
fn time_run<R: Clock + Threads + Wait + Sync>(
    rt: &R,
    alloc: Global,
    plan: Plan,
    steps: u32,
    bodies: Bodies,
) -> anyhow::Result<Times> {
    let mut engine = Engine::open(alloc, plan, bodies)?;
    let mut locked = LockedYard::new();
    let mut free = FreeYard::new();
    let mut times = Times {
        tree: 0,
        frame: 0,
        motion: 0,
    };
    for _ in 0..steps {
        let step = time_step(rt, plan.builder, &mut engine, &mut locked, &mut free)?;
        times = times.and(step);
    }
    Ok(times)
}

/// Times one pass: its moves, and the tree behind them.
fn time_pass<R: Clock + Threads + Wait + Sync>(
    rt: &R,
    builder: Builder,
    moves: &[Move],
    engine: &mut Engine,
    locked: &mut LockedYard,
    free: &mut FreeYard,
) -> anyhow::Result<Times>
    requires tree { engine.old.stage ≡ WithTree }
    requires builder { engine.old.plan.builder ≡ builder }
    requires moves { IsPass engine.old.bodies moves.now }
    ensures tree { OnOk result (engine.new ≡ with_tree (shifted_by moves.now engine.old)) }
{
    let start = Instant::now(rt)?;
    engine.shift(moves)?;
    let motion = since(rt, start)?;
    let start = Instant::now(rt)?;
    make_tree(rt, builder, engine, locked, free)?;
    let tree = since(rt, start)?;
    Ok(Times {
        tree,
        frame: 0,
        motion,
    })
}

/// Times the passes of a scene behind its first tree.
fn time_passes<R: Clock + Threads + Wait + Sync>(
    rt: &R,
    alloc: Global,
    plan: Plan,
    bodies: Bodies,
    passes: &Passes,
) -> anyhow::Result<Times>
    requires { IsScene (record { bodies = bodies; passes = passes.now }) }
{
    let mut engine = Engine::open(alloc, plan, bodies)?;
    let mut locked = LockedYard::new();
    let mut free = FreeYard::new();
    let mut times = Times {
        tree: 0,
        frame: 0,
        motion: 0,
    };
    make_tree(rt, plan.builder, &mut engine, &mut locked, &mut free)?;
    for i in 0..passes.len() {
        let moves = passes.pass(i);
        let pass = time_pass(rt, plan.builder, moves, &mut engine, &mut locked, &mut free)?;
        times = times.and(pass);
    }
    Ok(times)
}

/// The least time of a motion alone, in which each body is pulled along x.
fn time_motion<R: Clock>(
    rt: &R,
    alloc: Global,
    bodies: &Bodies,
    along: i128,
) -> anyhow::Result<u128> {
    let pull = Pull {
        ax: along,
        ay: 0,
        az: 0,
        met: 0,
    };
    let pulls = vec![in alloc; pull; bodies.len() as usize]?;
    let mut least = u128::MAX;
    for _ in 0..ROUNDS {
        let mut motion = Motion::new(alloc, bodies)?;
        let start = Instant::now(rt)?;
        let _moves = motion.step(&pulls)?;
        least = least.min(since(rt, start)?);
    }
    Ok(least)
}

/// The builder of a name.
fn builder_of(name: &str) -> Option<Builder> {
    match name {
        "orig" => Some(Builder::Orig),
        "local" => Some(Builder::Local),
        "update" => Some(Builder::Update),
        "partree" => Some(Builder::Partree),
        "space" => Some(Builder::Space),
        _ => None,
    }
}

/// The plan with the default law that the words ask for.
fn plan_of(words: &[String]) -> Option<Plan> {
    let builder = builder_of(words.first()?.as_str())?;
    let workers = words.get(1)?.parse::<u32>().ok()?;
    if workers < 1 || workers > 64 {
        return None;
    }
    Some(Plan {
        builder,
        workers,
        law: Law {
            theta_num: 1,
            theta_den: 1,
            eps2: 0,
            g: 4_294_967_296,
        },
    })
}

/// The plan and the number of steps that the words ask for.
fn asked(words: &[String]) -> Option<(Plan, u32)> {
    let plan = plan_of(words)?;
    Some((plan, words.get(2)?.parse::<u32>().ok()?))
}

fn main(rt: HostRuntime) -> anyhow::Result<()> {
    let alloc = rt.alloc();
    keep_blocks(alloc)?;
    let words: Vec<String> = env::args(&rt)?.skip(1).collect(alloc)?;
    let Some((plan, steps)) = asked(&words) else {
        return Ok(());
    };
    let mut source = StdSource::new(rt.stdin());
    let Input::Whole(bytes) = read_all(alloc, &mut source, MOST_BYTES)? else {
        return Ok(());
    };
    let scene = read_scene(alloc, &bytes)?;
    let bodies = scene.bodies;
    let keep = time_motion(&rt, alloc, &bodies, 0)?;
    let leave = time_motion(&rt, alloc, &bodies, TWO_UNITS)?;
    let again = read_scene(alloc, &bytes)?;
    let times = time_run(&rt, alloc, plan, steps, bodies)?;
    let passed = time_passes(&rt, alloc, plan, again.bodies, &again.passes)?;
    for (name, number) in [
        ("tree", times.tree),
        ("frame", times.frame),
        ("motion", times.motion),
        ("keep", keep),
        ("leave", leave),
        ("pass_tree", passed.tree),
        ("moves", passed.motion),
    ] {
        eprintln!(rt; "{name} {number}")?;
    }
    Ok(())
}
