//! Reads a scene of bodies from standard input, and writes to standard output what the program's words ask for.
#![tactic(auto)]

use bh_outside::{StdSink, StdSource, keep_blocks};
use build_gate::OpenGate;
use free_tree::FreeYard;
use locked_tree::LockedYard;
use nbody_cli::serve;
use probe::{Balance, FirstFrames, Momentum, Probe};
use std::process::ExitCode;
use std::{env, io};

/// How many frames the probe of the first frames sees.
const FIRST_FRAMES: u32 = 3;

/// The words after the program's name.
fn words_of(rt: &HostRuntime) -> io::Result<Vec<String>> {
    Ok(env::args(rt)?.skip(1).collect(rt.alloc())?)
}

fn main(rt: HostRuntime) -> ExitCode {
    if keep_blocks(rt.alloc()).is_err() {
        return ExitCode::from(6);
    }
    let words = match words_of(&rt) {
        Ok(words) => words,
        Err(error) => match error.kind() {
            io::ErrorKind::OutOfMemory => return ExitCode::from(6),
            _ => return ExitCode::from(1),
        },
    };
    let alloc = rt.alloc();
    let (balance, momentum, first) = match (
        Box::new(alloc, Balance::new()),
        Box::new(alloc, Momentum::new()),
        Box::new(alloc, FirstFrames::new(FIRST_FRAMES)),
    ) {
        (Ok(balance), Ok(momentum), Ok(first)) => (balance, momentum, first),
        _ => return ExitCode::from(6),
    };
    let mut probes: Vec<Box<dyn Probe>> = Vec::new(alloc);
    if probes.push(balance).is_err()
        || probes.push(momentum).is_err()
        || probes.push(first).is_err()
    {
        return ExitCode::from(6);
    }
    let mut source = StdSource::new(rt.stdin());
    let mut sink = StdSink::new(rt.stdout());
    let mut locked = LockedYard::new();
    let mut free = FreeYard::new();
    let status = serve(
        &rt,
        &words,
        &mut source,
        &mut sink,
        &mut locked,
        &mut free,
        &OpenGate,
        probes,
    );
    ExitCode::from(status.number())
}
