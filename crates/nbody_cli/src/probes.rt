//! The probes of a run: choosing them, showing them frames, and writing what they tell.

ghost use Rattle.std.specs.Prelude.{◌≡◌, [], IfOk, OnOk, List, map};
ghost use Rattle.bh_outside.specs.Outside.{Took};
ghost use Rattle.probe.specs.States.{ProbeState, state_after, verdict_of};
ghost use Rattle.nbody_cli.specs.Probes.{chosen, keeps, left_after, lines_at, probe_line, probe_lines};
ghost use Rattle.nbody_cli.specs.Serving.{Shows};
ghost use Rattle.nbody_cli.specs.Text.{kept_probes};
ghost use Rattle.nbody_cli.specs.declared.status.Status.TheVariants.{Done, Memory};

use crate::status::Status;
use bh_outside::{Sink, write_all};
use nbody_options::{Command, Options, ProbeChoice};
use octant_code::OutOfMemory;
use probe::{Frame, Kind, Probe, Verdict};
use std::alloc::Global;

// Whether a choice keeps a probe of a kind.
fn keeps(choice: ProbeChoice, kind: Kind) -> bool
    ensures { result ≡ keeps choice kind }
{
    match choice {
        ProbeChoice::Nobody => false,
        ProbeChoice::All => true,
        ProbeChoice::Only(kept) => kept == kind,
    }
}

// What a probe watches.
fn kind_of(probe: &Box<dyn Probe>) -> Kind
    ensures { result ≡ kind probe.now }
{
    probe.kind()
}

// Shows a frame to a probe.
fn show_probe(probe: &mut Box<dyn Probe>, frame: &Frame) -> Result<Verdict, OutOfMemory>
    ensures kind { kind probe.new ≡ kind probe.old }
    ensures state { OnOk result (state probe.new ≡ state_after (kind probe.old) frame.now (state probe.old)) }
    ensures verdict { IfOk result (λ v. v ≡ verdict_of (kind probe.new) (state probe.new)) }
{
    probe.see(frame)
}

// The line of a probe.
fn line_of(alloc: Global, probe: &Box<dyn Probe>) -> Result<Vec<u8>, OutOfMemory>
    ensures { IfOk result (λ line. line.items ≡ probe_line (record { kind = kind probe.now; state = state probe.now })) }
{
    let mut line = Vec::new(alloc);
    line.extend_from_slice(b"probe ")?;
    probe.line(&mut line)?;
    line.push(b'\n')?;
    Ok(line)
}

/// Writes the line of a probe, which is made whole before any of it is written.
fn write_line<K: Sink>(alloc: Global, probe: &Box<dyn Probe>, sink: &mut K) -> Status
    ensures shows { Shows (probe_line (record { kind = kind probe.now; state = state probe.now })) (K.written sink.old) (K.faults sink.old) (K.written sink.new) (K.faults sink.new) result }
    ensures unwritten { result ≡ Memory → Took (K.written sink.old) (K.written sink.new) [] }
{
    match line_of(alloc, probe) {
        Ok(line) => match write_all(sink, &line) {
            Ok(()) => Status::Done,
            Err(_) => Status::Write,
        },
        Err(_) => Status::Memory,
    }
}

/// Keeps the probes that a choice asks for, in their order, and drops the others.
fn choose(probes: &mut Vec<Box<dyn Probe>>, choice: ProbeChoice)
    ensures { map (λ b. record { kind = kind b; state = state b }) probes.new.items ≡ chosen choice (map (λ b. record { kind = kind b; state = state b }) probes.old.items) }
{
    let mut at = 0;
    while at < probes.len() {
        if keeps(choice, kind_of(&probes[at])) {
            at += 1;
        } else {
            probes.remove(at);
        }
    }
}

/// Keeps the probes that the options ask for, in their order, and drops the others: a run keeps those
/// that are chosen, and no other command keeps any.
pub fn keep_probes(options: &Options, probes: &mut Vec<Box<dyn Probe>>)
    ensures { map (λ b. record { kind = kind b; state = state b }) probes.new.items ≡ kept_probes options.now.command options.now.probe (map (λ b. record { kind = kind b; state = state b }) probes.old.items) }
{
    match options.command {
        Command::Run => choose(probes, options.probe),
        Command::Tree | Command::Passes | Command::Trial => probes.clear(),
    }
}

/// Shows a frame to each probe, in their order. Where one has seen enough, its line is written at once,
/// and it is dropped; the others are left.
pub fn show_probes<K: Sink>(
    alloc: Global,
    probes: &mut Vec<Box<dyn Probe>>,
    frame: &Frame,
    sink: &mut K,
) -> Status
    ensures shows { Shows (lines_at frame.now (map (λ b. record { kind = kind b; state = state b }) probes.old.items)) (K.written sink.old) (K.faults sink.old) (K.written sink.new) (K.faults sink.new) result }
    ensures left { result ≡ Done → map (λ b. record { kind = kind b; state = state b }) probes.new.items ≡ left_after frame.now (map (λ b. record { kind = kind b; state = state b }) probes.old.items) }
{
    let mut at = 0;
    while at < probes.len() {
        match show_probe(&mut probes[at], frame) {
            Ok(Verdict::More) => at += 1,
            Ok(Verdict::Finished) => {
                let probe = probes.remove(at);
                match write_line(alloc, &probe, sink) {
                    Status::Done => {}
                    stopped => return stopped,
                }
            }
            Err(_) => return Status::Memory,
        }
    }
    Status::Done
}

/// Writes the lines of the probes that are left at the end of a run, in their order.
pub fn finish_probes<K: Sink>(alloc: Global, probes: &[Box<dyn Probe>], sink: &mut K) -> Status
    ensures { Shows (probe_lines (map (λ b. record { kind = kind b; state = state b }) probes.now)) (K.written sink.old) (K.faults sink.old) (K.written sink.new) (K.faults sink.new) result }
{
    for probe in probes {
        match write_line(alloc, probe, sink) {
            Status::Done => {}
            stopped => return stopped,
        }
    }
    Status::Done
}
