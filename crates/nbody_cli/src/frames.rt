//! The frames of a run, one after another.

ghost use Rattle.std.specs.Prelude.{◌≡◌, ◌<◌, ◌≤◌, ◌^◌, ◌++◌, [], OnOk, length, map};
ghost use Rattle.bh_model.specs.declared.plan.Builder.TheVariants.{Orig};
ghost use Rattle.frame_core.specs.Building.{IsFree};
ghost use Rattle.frame_core.specs.Engines.{WithFrame, WithTree, frame_of, opened, with_frame};
ghost use Rattle.nbody_cli.specs.Frames.{frame_lines, pass_lines, tree_lines};
ghost use Rattle.nbody_cli.specs.Lines.{lines_text};
ghost use Rattle.nbody_cli.specs.Probes.{left_after, lines_at};
ghost use Rattle.probe.specs.States.{ProbeState};
ghost use Rattle.nbody_cli.specs.Serving.{HasParts, Runs, Shows, frame_count, moved_on, output, with_parts};
ghost use Rattle.nbody_cli.specs.Text.{command_parts, lines_of_frame};
ghost use Rattle.nbody_cli.specs.declared.status.Status.TheVariants.{Done};
ghost use Rattle.nbody_options.specs.declared.options.Command.TheVariants.{Passes as ByPasses, Run as BySteps, Trial as Summed};
ghost use Rattle.scene_file.specs.Moves.{IsPass, IsScene, pass_at};

use crate::frame_text::{write_frame, write_pass, write_tree, write_trial};
use crate::probes::{finish_probes, keep_probes, show_probes};
use crate::status::Status;
use bh_outside::Sink;
use build_gate::Gate;
use frame_core::Engine;
use free_tree::FreeYard;
use locked_tree::LockedYard;
use nbody_options::{Command, Options};
use octant_code::OutOfMemory;
use probe::{Frame, Probe};
use scene_file::{MOST_PASSES, Passes};
use std::alloc::Global;
use std::marker::Sync;
use std::sync::Wait;
use std::thread::Threads;

/// Writes the lines of the tree of an engine.
fn show_tree<K: Sink>(engine: &Engine, sink: &mut K) -> Status
    requires { engine.now.stage ≡ WithTree }
    ensures { Shows (lines_text (tree_lines engine.now)) (K.written sink.old) (K.faults sink.old) (K.written sink.new) (K.faults sink.new) result }
{
    match write_tree(sink, engine) {
        Ok(()) => Status::Done,
        Err(_) => Status::Write,
    }
}

/// Writes the lines of a frame of passes.
fn show_pass<K: Sink>(engine: &Engine, sink: &mut K) -> Status
    requires { engine.now.stage ≡ WithTree }
    ensures { Shows (lines_text (pass_lines engine.now)) (K.written sink.old) (K.faults sink.old) (K.written sink.new) (K.faults sink.new) result }
{
    match write_pass(sink, engine) {
        Ok(()) => Status::Done,
        Err(_) => Status::Write,
    }
}

/// Writes the lines of a frame, shows it to the probes, and writes the lines of those that it finishes.
fn show_frame<K: Sink>(
    alloc: Global,
    engine: &Engine,
    frame: &Frame,
    probes: &mut Vec<Box<dyn Probe>>,
    sink: &mut K,
) -> Status
    requires stage { engine.now.stage ≡ WithFrame }
    requires figures { frame.now ≡ frame_of engine.now }
    ensures shows { Shows (lines_text (frame_lines engine.now) ++ lines_at frame.now (map (λ b. record { kind = kind b; state = state b }) probes.old.items)) (K.written sink.old) (K.faults sink.old) (K.written sink.new) (K.faults sink.new) result }
    ensures left { result ≡ Done → map (λ b. record { kind = kind b; state = state b }) probes.new.items ≡ left_after frame.now (map (λ b. record { kind = kind b; state = state b }) probes.old.items) }
{
    match write_frame(sink, engine, frame) {
        Ok(()) => show_probes(alloc, probes, frame, sink),
        Err(_) => Status::Write,
    }
}

/// Makes the frame of an engine whose bodies have their tree, writes its lines, and shows it to the
/// probes. The workers pass the gate.
fn show_step<R: AllocGlobal + Threads + Sync, K: Sink, G: Gate>(
    rt: &R,
    engine: &mut Engine,
    probes: &mut Vec<Box<dyn Probe>>,
    gate: &G,
    sink: &mut K,
) -> Status
    requires { engine.old.stage ≡ WithTree }
    ensures shows { Shows (lines_text (frame_lines engine.old) ++ lines_at (frame_of engine.old) (map (λ b. record { kind = kind b; state = state b }) probes.old.items)) (K.written sink.old) (K.faults sink.old) (K.written sink.new) (K.faults sink.new) result }
    ensures made { result ≡ Done → engine.new ≡ with_frame engine.old }
    ensures left { result ≡ Done → map (λ b. record { kind = kind b; state = state b }) probes.new.items ≡ left_after (frame_of engine.old) (map (λ b. record { kind = kind b; state = state b }) probes.old.items) }
{
    match engine.frame(rt, gate) {
        Ok(frame) => show_frame(rt.alloc(), engine, &frame, probes, sink),
        Err(_) => Status::Memory,
    }
}

/// Writes the lines of a trial where an engine's frame is its last.
fn show_last<K: Sink>(options: &Options, engine: &Engine, frame: &Frame, sink: &mut K) -> Status
    requires stage { engine.now.stage ≡ WithFrame }
    requires figures { frame.now ≡ frame_of engine.now }
    ensures { Shows (lines_text (lines_of_frame Summed options.now engine.now)) (K.written sink.old) (K.faults sink.old) (K.written sink.new) (K.faults sink.new) result }
{
    if frame.step == options.steps - 1 {
        match write_trial(sink, options, engine, frame) {
            Ok(()) => Status::Done,
            Err(_) => Status::Write,
        }
    } else {
        Status::Done
    }
}

/// Makes the frame of an engine whose bodies have their tree, and writes the lines of a trial where
/// that frame is its last.
fn show_trial<R: Threads + Sync, K: Sink, G: Gate>(
    rt: &R,
    options: &Options,
    engine: &mut Engine,
    gate: &G,
    sink: &mut K,
) -> Status
    requires { engine.old.stage ≡ WithTree }
    ensures shows { Shows (lines_text (lines_of_frame Summed options.now engine.old)) (K.written sink.old) (K.faults sink.old) (K.written sink.new) (K.faults sink.new) result }
    ensures made { result ≡ Done → engine.new ≡ with_frame engine.old }
{
    match engine.frame(rt, gate) {
        Ok(frame) => show_last(options, engine, &frame, sink),
        Err(_) => Status::Memory,
    }
}

/// Writes what a command tells of an engine whose bodies have their tree.
fn show<R: AllocGlobal + Threads + Sync, K: Sink, G: Gate>(
    rt: &R,
    options: &Options,
    engine: &mut Engine,
    probes: &mut Vec<Box<dyn Probe>>,
    gate: &G,
    sink: &mut K,
) -> Status
    requires tree { engine.old.stage ≡ WithTree }
    requires kept { (options.now.command ≡ BySteps → ⊥) → map {B = ProbeState} (λ b. record { kind = kind b; state = state b }) probes.old.items ≡ [] }
    ensures shows { Shows (lines_text (lines_of_frame options.now.command options.now engine.old) ++ lines_at (frame_of engine.old) (map (λ b. record { kind = kind b; state = state b }) probes.old.items)) (K.written sink.old) (K.faults sink.old) (K.written sink.new) (K.faults sink.new) result }
    ensures made { result ≡ Done → engine.new ≡ with_parts options.now.command engine.old }
    ensures left { result ≡ Done → map (λ b. record { kind = kind b; state = state b }) probes.new.items ≡ left_after (frame_of engine.old) (map (λ b. record { kind = kind b; state = state b }) probes.old.items) }
{
    match options.command {
        Command::Tree => show_tree(engine, sink),
        Command::Passes => show_pass(engine, sink),
        Command::Run => show_step(rt, engine, probes, gate, sink),
        Command::Trial => show_trial(rt, options, engine, gate, sink),
    }
}

/// Moves the bodies on from the frame of a number, which was shown. The last frame has none after it.
fn move_on(
    options: &Options,
    passes: &Passes,
    number: usize,
    engine: &mut Engine,
) -> Result<(), OutOfMemory>
    requires few { number < 2 ^ 32 }
    requires tree { HasParts options.now.command engine.old.stage }
    requires moves { options.now.command ≡ ByPasses → number < length passes.now → IsPass engine.old.bodies (pass_at passes.now number) }
    ensures { OnOk result (engine.new ≡ moved_on options.now.command options.now.steps passes.now number engine.old) }
{
    match options.command {
        Command::Tree => Ok(()),
        Command::Passes => {
            if number < passes.len() {
                engine.shift(passes.pass(number))
            } else {
                Ok(())
            }
        }
        Command::Run | Command::Trial => {
            if number + 1 < options.steps as usize {
                engine.drift()
            } else {
                Ok(())
            }
        }
    }
}

/// Shows the frame of a number, whose tree is made, and moves the bodies on from it.
fn show_and_move_on<R: AllocGlobal + Threads + Sync, K: Sink, G: Gate>(
    rt: &R,
    options: &Options,
    passes: &Passes,
    number: usize,
    engine: &mut Engine,
    probes: &mut Vec<Box<dyn Probe>>,
    gate: &G,
    sink: &mut K,
) -> Status
    requires few { number < 2 ^ 32 }
    requires tree { engine.old.stage ≡ WithTree }
    requires kept { (options.now.command ≡ BySteps → ⊥) → map {B = ProbeState} (λ b. record { kind = kind b; state = state b }) probes.old.items ≡ [] }
    requires moves { options.now.command ≡ ByPasses → number < length passes.now → IsPass engine.old.bodies (pass_at passes.now number) }
    ensures shows { Shows (lines_text (lines_of_frame options.now.command options.now engine.old) ++ lines_at (frame_of engine.old) (map (λ b. record { kind = kind b; state = state b }) probes.old.items)) (K.written sink.old) (K.faults sink.old) (K.written sink.new) (K.faults sink.new) result }
    ensures made { result ≡ Done → engine.new ≡ moved_on options.now.command options.now.steps passes.now number (with_parts options.now.command engine.old) }
    ensures left { result ≡ Done → map (λ b. record { kind = kind b; state = state b }) probes.new.items ≡ left_after (frame_of engine.old) (map (λ b. record { kind = kind b; state = state b }) probes.old.items) }
{
    match show(rt, options, engine, probes, gate, sink) {
        Status::Done => match move_on(options, passes, number, engine) {
            Ok(()) => Status::Done,
            Err(_) => Status::Memory,
        },
        stopped => stopped,
    }
}

/// How many frames the options make.
fn frame_count(options: &Options, passes: &Passes) -> usize
    requires { length passes.now ≤ MOST_PASSES }
    ensures value { result ≡ frame_count options.now.command options.now.steps passes.now }
    ensures few { result < 2 ^ 32 }
{
    match options.command {
        Command::Tree => 1,
        Command::Passes => passes.len() + 1,
        Command::Run | Command::Trial => options.steps as usize,
    }
}

/// The frames that the options make, one after another, each shown to the probes that the options keep,
/// and the lines of those that are left at the end, of an engine whose trees ORIG makes in the yard with
/// locks. It may wait.
pub fn run_locked<R: AllocGlobal + Threads + Wait + Sync, K: Sink, G: Gate>(
    rt: &R,
    options: &Options,
    passes: &Passes,
    engine: &mut Engine,
    locked: &mut LockedYard,
    gate: &G,
    sink: &mut K,
    probes: Vec<Box<dyn Probe>>,
) -> Status
    requires builder { options.now.plan.builder ≡ Orig }
    requires accepted { IsScene (record { bodies = engine.old.bodies; passes = passes.now }) }
    requires opened { engine.old ≡ opened options.now.plan engine.old.bodies }
    ensures { Runs (command_parts (map (λ b. record { kind = kind b; state = state b }) probes.items) options.now (record { bodies = engine.old.bodies; passes = passes.now })) (output (K.written sink.old) (K.faults sink.old) locked.old)
        (output (K.written sink.new) (K.faults sink.new) locked.new) result }
{
    let mut kept = probes;
    keep_probes(options, &mut kept);
    for number in 0..frame_count(options, passes) {
        // The counts have 64 bits, so none falls.
        let _published = locked.published();
        let _changes = locked.changes();
        match engine.tree(rt, locked, gate) {
            Ok(()) => {}
            Err(_) => return Status::Memory,
        }
        match show_and_move_on(rt, options, passes, number, engine, &mut kept, gate, sink) {
            Status::Done => {}
            stopped => return stopped,
        }
    }
    let _published = locked.published();
    let _changes = locked.changes();
    finish_probes(rt.alloc(), &kept, sink)
}

/// The frames that the options make, one after another, of an engine whose trees are made by a builder
/// that waits for nobody, as `run_locked` does for ORIG. A method of a trait can't start the threads
/// of both, so each has its loop.
pub fn run_free<R: AllocGlobal + Threads + Sync, K: Sink, G: Gate>(
    rt: &R,
    options: &Options,
    passes: &Passes,
    engine: &mut Engine,
    free: &mut FreeYard,
    gate: &G,
    sink: &mut K,
    probes: Vec<Box<dyn Probe>>,
) -> Status
    requires builder { IsFree options.now.plan.builder }
    requires accepted { IsScene (record { bodies = engine.old.bodies; passes = passes.now }) }
    requires opened { engine.old ≡ opened options.now.plan engine.old.bodies }
    ensures { Runs (command_parts (map (λ b. record { kind = kind b; state = state b }) probes.items) options.now (record { bodies = engine.old.bodies; passes = passes.now })) (output (K.written sink.old) (K.faults sink.old) free.old)
        (output (K.written sink.new) (K.faults sink.new) free.new) result }
{
    let mut kept = probes;
    keep_probes(options, &mut kept);
    for number in 0..frame_count(options, passes) {
        // The counts have 64 bits, so none falls.
        let _published = free.published();
        let _changes = free.changes();
        match engine.tree_free(rt, free, gate) {
            Ok(()) => {}
            Err(_) => return Status::Memory,
        }
        match show_and_move_on(rt, options, passes, number, engine, &mut kept, gate, sink) {
            Status::Done => {}
            stopped => return stopped,
        }
    }
    let _published = free.published();
    let _changes = free.changes();
    finish_probes(rt.alloc(), &kept, sink)
}
