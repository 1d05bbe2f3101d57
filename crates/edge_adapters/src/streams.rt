// Standard input and standard output as a source and a sink. They tell no content, and count their faults.
ghost use Rattle.std.specs.Prelude.{◌≡◌, None};

use edge_traits::{Failed, Sink, Source};
use std::io::{Read, Stdin, Stdout, Write};

/// Standard input. Each error that a read meets is a counted fault, also one that a signal brings. A read that gives no
/// bytes is the end of the input, and no fault.
#[derive(Drop)]
pub struct StdSource {
    input: Stdin,
    faults: u64,
}

impl StdSource {
    /// The input of this process, with no fault so far.
    pub fn new(input: Stdin) -> Self
        ensures { result.faults ≡ 0 }
    {
        StdSource { input, faults: 0 }
    }
}

impl Source for StdSource {
    ghost left = { λ s. None };

    ghost faults = { λ s. s.faults };

    fn read(&mut self, buf: &mut [u8]) -> Result<usize, Failed> {
        match self.input.read(buf) {
            Ok(n) => Ok(n),
            Err(_) => {
                self.faults = self.faults.saturating_add(1);
                Err(Failed)
            }
        }
    }
}

/// Standard output. Each error that a write meets is a counted fault, also one that a signal brings, and so is a write
/// that takes nothing of some bytes. Nothing is buffered.
#[derive(Drop)]
pub struct StdSink {
    output: Stdout,
    faults: u64,
}

impl StdSink {
    /// The output of this process, with no fault so far.
    pub fn new(output: Stdout) -> Self
        ensures { result.faults ≡ 0 }
    {
        StdSink { output, faults: 0 }
    }
}

impl Sink for StdSink {
    ghost held = { λ s. None };

    ghost faults = { λ s. s.faults };

    fn write(&mut self, bytes: &[u8]) -> Result<usize, Failed> {
        match self.output.write(bytes) {
            Ok(n) if n > 0 || bytes.is_empty() => Ok(n),
            _ => {
                self.faults = self.faults.saturating_add(1);
                Err(Failed)
            }
        }
    }
}
