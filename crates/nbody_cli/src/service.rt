//! The top calls.

ghost use Rattle.std.specs.Prelude.{◌≡◌, Err, IfErr, IfOk, IsFalse, List, Ok, OnOk, map, string_bytes, true};
ghost use Rattle.bh_outside.specs.Outside.{KeepsSure};
ghost use Rattle.frame_core.specs.Engines.{opened};
ghost use Rattle.scene_file.specs.Moves.{IsScene};
ghost use Rattle.scene_file.specs.Scene.{scene_of};
ghost use Rattle.scene_file.specs.declared.fault.SceneFault.TheVariants.{OutOfMemory};
ghost use Rattle.nbody_cli.specs.Serving.{EndsEarly, IsOpened, Serves, ServesOptions, needs_source, ports, reads_source, scene_made_of, world};
ghost use Rattle.probe.specs.States.{ProbeState};
ghost use Rattle.nbody_options.specs.Options.{options_of};
ghost use Rattle.shared_tree.specs.Seen.{YardCounts};
ghost use Rattle.bh_model.specs.declared.plan.Builder.TheVariants.{Orig};

use crate::frames::{run_free, run_locked};
use crate::status::Status;
use crate::text::{write_refused, write_usage};
use bh_model::Builder;
use bh_outside::{Input, ReadAllFault, Sink, Source, read_all};
use build_gate::Gate;
use frame_core::Engine;
use free_tree::FreeYard;
use locked_tree::LockedYard;
use nbody_options::{Command, Options, OptionsFault, read_options};
use probe::Probe;
use scene_file::{MOST_BYTES, Passes, SceneFault, made_scene, read_scene};
use std::alloc::Global;
use std::sync::Wait;
use std::thread::Threads;

/// Writes the line of a scene's fault, which ends the run.
fn answer_fault<K: Sink>(sink: &mut K, fault: SceneFault) -> Status
    requires { fault ≡ OutOfMemory → ⊥ }
    ensures { EndsEarly result (Err fault) (K.written sink.old) (K.faults sink.old) (K.written sink.new) (K.faults sink.new) }
{
    match write_refused(sink, fault) {
        Ok(()) => Status::Scene,
        Err(_) => Status::Write,
    }
}

/// The engine of the scene of the bytes, and its passes. Where there is none, the line of the scene's
/// fault is written, and the status that ends the run is the error.
fn open_scene<K: Sink>(
    alloc: Global,
    options: &Options,
    bytes: &[u8],
    sink: &mut K,
) -> Result<(Engine, Passes), Status>
    ensures scene { IfOk result (λ r. scene_of bytes.now ≡ Ok (record { bodies = r.0.bodies; passes = r.1 })) }
    ensures accepted { IfOk result (λ r. IsScene (record { bodies = r.0.bodies; passes = r.1 })) }
    ensures engine { IfOk result (λ r. r.0 ≡ opened options.now.plan r.0.bodies) }
    ensures silent { OnOk result (sink.new ≡ sink.old) }
    ensures ended { IfErr result (λ s. EndsEarly s (scene_of bytes.now) (K.written sink.old) (K.faults sink.old) (K.written sink.new) (K.faults sink.new)) }
{
    let scene = match read_scene(alloc, bytes) {
        Ok(scene) => scene,
        Err(SceneFault::OutOfMemory) => return Err(Status::Memory),
        Err(fault) => return Err(answer_fault(sink, fault)),
    };
    let passes = scene.passes;
    match Engine::open(alloc, options.plan, scene.bodies) {
        Ok(engine) => Ok((engine, passes)),
        Err(_) => Err(Status::Memory),
    }
}

/// The engine of the scene that the source tells, which is read to its end before anything is written,
/// and the scene's passes. Where there is none, the status that ends the run is the error, and no yard
/// has counted anything.
fn open_told<S: Source, K: Sink>(
    alloc: Global,
    options: &Options,
    source: &mut S,
    sink: &mut K,
) -> Result<(Engine, Passes), Status>
    requires { reads_source options.now.command ≡ true }
    ensures opened { IfOk result (λ r. (probes : List ProbeState) → IsOpened probes options.now (S.left source.old) (S.left source.new) r.0 r.1) }
    ensures silent { OnOk result (sink.new ≡ sink.old) }
    ensures ended { IfErr result (λ s. (probes : List ProbeState) (yard : YardCounts) → ServesOptions probes options.now (ports (S.left source.old) (S.faults source.old) (K.written sink.old) (K.faults sink.old))
        (ports (S.left source.new) (S.faults source.new) (K.written sink.new) (K.faults sink.new)) yard yard s) }
    ensures sure { KeepsSure (S.sure source.old) (S.sure source.new) (S.faults source.old) (S.faults source.new) }
{
    match read_all(alloc, source, MOST_BYTES) {
        Ok(Input::Whole(bytes)) => open_scene(alloc, options, &bytes, sink),
        Ok(Input::TooLong) => Err(answer_fault(sink, SceneFault::TooLong)),
        Err(ReadAllFault::Failed) => Err(Status::Read),
        Err(ReadAllFault::OutOfMemory) => Err(Status::Memory),
    }
}

/// The engine of the scene that the options make, and its passes.
fn open_made(alloc: Global, options: &Options) -> Result<(Engine, Passes), octant_code::OutOfMemory>
    ensures bodies { IfOk result (λ r. r.0.bodies ≡ (scene_made_of options.now.made).bodies) }
    ensures accepted { IfOk result (λ r. IsScene (record { bodies = r.0.bodies; passes = r.1 })) }
    ensures engine { IfOk result (λ r. r.0 ≡ opened options.now.plan r.0.bodies) }
{
    let made = options.made;
    let scene = made_scene(alloc, made.count, made.seed, made.shape)?;
    let passes = scene.passes;
    let engine = Engine::open(alloc, options.plan, scene.bodies)?;
    Ok((engine, passes))
}

/// The engine of the scene whose frames the options ask for, and its passes: a trial's scene is made,
/// and its source stays as it is. Where there is none, the status that ends the run is the error, and
/// no yard has counted anything.
fn open_engine<S: Source, K: Sink>(
    alloc: Global,
    options: &Options,
    source: &mut S,
    sink: &mut K,
) -> Result<(Engine, Passes), Status>
    ensures opened { IfOk result (λ r. (probes : List ProbeState) → IsOpened probes options.now (S.left source.old) (S.left source.new) r.0 r.1) }
    ensures silent { OnOk result (sink.new ≡ sink.old) }
    ensures ended { IfErr result (λ s. (probes : List ProbeState) (yard : YardCounts) → ServesOptions probes options.now (ports (S.left source.old) (S.faults source.old) (K.written sink.old) (K.faults sink.old))
        (ports (S.left source.new) (S.faults source.new) (K.written sink.new) (K.faults sink.new)) yard yard s) }
    ensures sure { KeepsSure (S.sure source.old) (S.sure source.new) (S.faults source.old) (S.faults source.new) }
    ensures untouched { IsFalse (reads_source options.now.command) → source.new ≡ source.old }
{
    match options.command {
        Command::Trial => match open_made(alloc, options) {
            Ok(opened) => Ok(opened),
            Err(_) => Err(Status::Memory),
        },
        _ => open_told(alloc, options, source, sink),
    }
}

/// Does what options with the builder ORIG ask for, as `serve_free` does for every other builder. The
/// workers build their trees in the yard whose trees have locks. It may wait.
fn serve_locked<R: AllocGlobal + Threads + Wait + Sync, S: Source, K: Sink, G: Gate>(
    rt: &R,
    options: &Options,
    source: &mut S,
    sink: &mut K,
    locked: &mut LockedYard,
    gate: &G,
    probes: Vec<Box<dyn Probe>>,
) -> Status
    requires builder { options.now.plan.builder ≡ Orig }
    ensures serves { ServesOptions (map (λ b. record { kind = kind b; state = state b }) probes.items) options.now (ports (S.left source.old) (S.faults source.old) (K.written sink.old) (K.faults sink.old))
        (ports (S.left source.new) (S.faults source.new) (K.written sink.new) (K.faults sink.new)) locked.old locked.new result }
    ensures sure { KeepsSure (S.sure source.old) (S.sure source.new) (S.faults source.old) (S.faults source.new) }
    ensures untouched { IsFalse (reads_source options.now.command) → source.new ≡ source.old }
{
    // The counts have 64 bits, so none falls.
    let _published = locked.published();
    let _changes = locked.changes();
    let (mut engine, passes) = match open_engine(rt.alloc(), options, source, sink) {
        Ok(opened) => opened,
        Err(status) => return status,
    };
    run_locked(
        rt,
        options,
        &passes,
        &mut engine,
        locked,
        gate,
        sink,
        probes,
    )
}

/// Does what options with another builder than ORIG ask for: reads the scene from the source to its
/// end, or makes it for a trial, which leaves the source as it is, and writes the text to the sink,
/// each frame before the next is begun. It writes nothing before the whole input is read. The workers
/// build their trees in the yard and pass the gate. It waits for nobody.
///
/// It reads no words, and never answers `Usage`.
pub fn serve_free<R: AllocGlobal + Threads + Sync, S: Source, K: Sink, G: Gate>(
    rt: &R,
    options: &Options,
    source: &mut S,
    sink: &mut K,
    free: &mut FreeYard,
    gate: &G,
    probes: Vec<Box<dyn Probe>>,
) -> Status
    requires builder { options.now.plan.builder ≡ Orig → ⊥ }
    ensures serves { ServesOptions (map (λ b. record { kind = kind b; state = state b }) probes.items) options.now (ports (S.left source.old) (S.faults source.old) (K.written sink.old) (K.faults sink.old))
        (ports (S.left source.new) (S.faults source.new) (K.written sink.new) (K.faults sink.new)) free.old free.new result }
    ensures sure { KeepsSure (S.sure source.old) (S.sure source.new) (S.faults source.old) (S.faults source.new) }
    ensures untouched { IsFalse (reads_source options.now.command) → source.new ≡ source.old }
{
    // The counts have 64 bits, so none falls.
    let _published = free.published();
    let _changes = free.changes();
    let (mut engine, passes) = match open_engine(rt.alloc(), options, source, sink) {
        Ok(opened) => opened,
        Err(status) => return status,
    };
    run_free(rt, options, &passes, &mut engine, free, gate, sink, probes)
}

/// Does what the words ask for: reads the scene from the source to its end, or makes it for a trial,
/// and writes the text to the sink, each frame before the next is begun. It writes nothing before the
/// whole input is read. Where the words have no options the text is the usage line; then, and in a
/// trial, the source stays as it is. The workers build their trees and pass the gate: ORIG's in the
/// yard whose trees have locks, for which it may wait, and those of every other builder by
/// `serve_free`.
pub fn serve<R: AllocGlobal + Threads + Wait + Sync, S: Source, K: Sink, G: Gate>(
    rt: &R,
    words: &[String],
    source: &mut S,
    sink: &mut K,
    locked: &mut LockedYard,
    free: &mut FreeYard,
    gate: &G,
    probes: Vec<Box<dyn Probe>>,
) -> Status
    ensures serves { Serves (map (λ b. record { kind = kind b; state = state b }) probes.items) (options_of (map string_bytes words.now)) (world (ports (S.left source.old) (S.faults source.old) (K.written sink.old) (K.faults sink.old)) locked.old free.old)
        (world (ports (S.left source.new) (S.faults source.new) (K.written sink.new) (K.faults sink.new)) locked.new free.new) result }
    ensures sure { KeepsSure (S.sure source.old) (S.sure source.new) (S.faults source.old) (S.faults source.new) }
    ensures untouched { IsFalse (needs_source (options_of (map string_bytes words.now))) → source.new ≡ source.old }
{
    let options = match read_options(rt.alloc(), words) {
        Ok(options) => options,
        Err(OptionsFault::OutOfMemory) => return Status::Memory,
        Err(OptionsFault::Usage) => match write_usage(sink) {
            Ok(()) => return Status::Usage,
            Err(_) => return Status::Write,
        },
    };
    match options.plan.builder {
        Builder::Orig => serve_locked(rt, &options, source, sink, locked, gate, probes),
        _ => serve_free(rt, &options, source, sink, free, gate, probes),
    }
}
