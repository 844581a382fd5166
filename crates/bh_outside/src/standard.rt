//! Standard input and output, which tell nothing of their bytes.

ghost use Rattle.std.specs.Prelude.{◌≡◌, None, false};
ghost use Rattle.bh_outside.specs.Outside.{WritesSome};

use crate::{Failed, Sink, Source};
use std::io::{Read, Stdin, Stdout, Write};
use std::marker::Model;

/// Standard input. Contracts see it as the count of its faults.
#[derive(Drop)]
pub struct StdSource {
    input: Stdin,
    faults: u64,
}

impl Model for StdSource {
    ghost use Rattle.std.specs.Prelude.{ℕ};

    ghost Value = { ℕ };

    ghost view = { λ s. s.faults };
}

impl StdSource {
    /// A source over standard input with no faults yet.
    pub fn new(input: Stdin) -> StdSource
        ensures { result ≡ 0 }
    {
        StdSource { input, faults: 0 }
    }
}

impl Source for StdSource {
    ghost left = { λ faults. None };

    ghost faults = { λ faults. faults };

    ghost sure = { λ faults. false };

    ghost calls = { λ faults. 0 };

    fn read_some(&mut self, into: &mut [u8]) -> Result<usize, Failed> {
        match self.input.read(into) {
            Ok(count) => Ok(count),
            Err(_) => {
                self.faults = self.faults.saturating_add(1);
                Err(Failed)
            }
        }
    }
}

/// Standard output. Each write is flushed. Contracts see it as the count of its faults.
#[derive(Drop)]
pub struct StdSink {
    output: Stdout,
    faults: u64,
}

impl Model for StdSink {
    ghost use Rattle.std.specs.Prelude.{ℕ};

    ghost Value = { ℕ };

    ghost view = { λ s. s.faults };
}

impl StdSink {
    /// A sink over standard output with no faults yet.
    pub fn new(output: Stdout) -> StdSink
        ensures { result ≡ 0 }
    {
        StdSink { output, faults: 0 }
    }
}

// Writes and flushes, and takes a write of nothing for a failure.
fn write_flushed<W: Write>(output: &mut W, from: &[u8]) -> Result<usize, Failed>
    ensures { WritesSome result from.now }
{
    match output.write(from) {
        Ok(count) => {
            if count == 0 && !from.is_empty() {
                return Err(Failed);
            }
            match output.flush() {
                Ok(()) => Ok(count),
                Err(_) => Err(Failed),
            }
        }
        Err(_) => Err(Failed),
    }
}

impl Sink for StdSink {
    ghost written = { λ faults. None };

    ghost faults = { λ faults. faults };

    fn write_some(&mut self, from: &[u8]) -> Result<usize, Failed> {
        let result = write_flushed(&mut self.output, from);
        if result.is_err() {
            self.faults = self.faults.saturating_add(1);
        }
        result
    }
}
